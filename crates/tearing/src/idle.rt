// Connections that lose rows in one pass: entries of the tally stay until the pass is over, and those of no row are taken out together.
ghost use Rattle.std.specs.Prelude.{◌≡◌, ◌*◌, length, Some};
ghost use Rattle.words.specs.Words.{words};
ghost use Rattle.regions.specs.declared.Conn.{Conn};
ghost use Rattle.regions.specs.Rows.{conn_size, conn_words};
ghost use Rattle.store.specs.Shown.{Shown, with_conns, Turns, Tallies};
ghost use Rattle.package_stages.specs.Dead.{filter};
ghost use Rattle.tearing.specs.Idle.{busy, ebb, ebbed};

use store::layout;

// One row less of the connection x, whose bit of owning was o. Its entry stays. (A number: the contract speaks of any o, where a `bool` would take 0 and 1 alone.)
pub fn count_off(s: &mut [u8], x: u64, o: u64)
    requires { Shown s.old }
    ensures { Tallies s.old s.new (ebbed x o) }
{
    store::counting::adjust(
        s,
        x,
        |c| -> Option<regions::Conn>
            ensures { result ≡ Some (ebb o c) }
        {
            Some(regions::Conn {
                held: c.held.saturating_sub(1),
                owned: c.owned.saturating_sub(o),
                ..c
            })
        },
    );
}

// Takes every entry of no row out of the tally.
// (Part, `retain`, count: one function over `store::parts::Part` would repeat `retain`'s clauses for a store, and places are no `Part`.)
pub fn drop_idle(s: &mut [u8])
    requires { Shown s.old }
    ensures { Turns s.old s.new (λ f. with_conns (filter busy f.conns) f) }
{
    let n = store::head::conns(s);
    let part = layout::conns_part(s);
    let m = regions::keep::retain::<regions::Conn, _>(
        &mut s[part],
        n,
        |c| -> bool
            requires { length c.now ≡ 8 * conn_size }
            ensures { (x : Conn) → words c.now ≡ conn_words x → result ≡ busy x }
        { regions::read::<regions::Conn>(c, 0).held > 0 },
    );
    words::put(s, layout::CONNS, m as u64);
}

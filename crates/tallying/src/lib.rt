// The connections' table of a store made from its rows (document 02, request b: a listing is read row by row).
//
// Each row first has an entry of its own. These are put in order and counted into the table where they stand: one row after the other
// would move the entries behind its connection's each time.
#![tactic(auto)]

pub mod counts;
pub mod heap;

ghost use Rattle.std.specs.Prelude.{[], map, ◌≡◌};
ghost use Rattle.store.specs.Flat.{tally};
ghost use Rattle.store.specs.Shown.{conns_in, Shown, with_conns, Turns};
ghost use Rattle.tallying.specs.Entries.{entry_of, counted};

use store::layout;

// An entry for each row, in the order of the rows.
fn fill(s: &mut [u8])
    requires { Shown s.old × (conns_in s.old ≡ 0) }
    ensures { Turns s.old s.new (λ f. with_conns (map entry_of f.rows) f) }
{
    let n = store::head::rows(s);
    for i in 0..n {
        let r = store::rows::row_at(s, i);
        let c = regions::Conn {
            conn: r.conn,
            held: 1,
            owned: u64::from(r.owns()),
        };
        store::parts::add(s, i, c);
    }
}

// The table of the entries, each of which stands for one row.
fn settle_conns(s: &mut [u8])
    requires { Shown s.old }
    ensures { Turns s.old s.new (λ f. with_conns (counted [] f.conns) f) }
{
    let n = store::head::conns(s);
    let part = layout::conns_part(s);
    let m = counts::settle(&mut s[part], n);
    words::put(s, layout::CONNS, m as u64);
}

// The connections of all rows, counted.
pub fn tally_rows(s: &mut [u8])
    requires { Shown s.old × (conns_in s.old ≡ 0) }
    ensures { Turns s.old s.new (λ f. with_conns (tally f.rows) f) }
{
    fill(s);
    settle_conns(s);
}

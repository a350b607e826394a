// The announcements of a connection that do not own their requests, under keys from `from` to `to`, are taken out of the store in one pass over
// the rows: one by one, each would move every row behind it.
//
// `cut_between` comes to the machine's cuts under these keys, one after the other in the order of keys.
#![tactic(auto)]

ghost use Rattle.std.specs.Prelude.{◌≡◌, ◌+◌, ◌*◌, ◌≤◌, ◌<◌, length};
ghost use Rattle.ident.specs.Words.{key_num};
ghost use Rattle.words.specs.Words.{words};
ghost use Rattle.regions.specs.declared.Row.{Row};
ghost use Rattle.regions.specs.Rows.{row_size, row_words};
ghost use Rattle.store.specs.Shown.{Shown, Kept, Tallies};
ghost use Rattle.requests.specs.Changes.{Makes};
ghost use Rattle.cutting.specs.Cuts.{between, cuts, row_in, row_key_in, stays, Dropped, less, lessen};

use store::layout;

// A connection, and the keys from `from` to `to`, both among them.
#[derive(Clone, Copy)]
pub struct Span {
    pub conn: u64,
    pub from: regions::Key,
    pub to: regions::Key,
}

// Whether the key k is one of the span's.
fn inside(k: regions::Key, p: Span) -> bool
    ensures { result ≡ row_key_in p.from p.to k }
{
    (p.from..=p.to).contains(&k)
}

// Whether the row goes: of that connection, no owner, under one of these keys.
fn goes(r: regions::Row, p: Span) -> bool
    ensures { result ≡ row_in p.conn p.from p.to r }
{
    r.conn == p.conn && !r.owns() && inside(regions::Key::from(r), p)
}

// Takes the rows that go out of the store; answers how many they were.
// (Part, `retain`, count: one function over `store::parts::Part` would repeat `retain`'s clauses for a store, and places are no `Part`.)
fn drop_rows(s: &mut [u8], p: Span) -> usize
    requires { Shown s.old }
    ensures { Dropped (stays p.conn p.from p.to) s.old s.new result }
{
    let n = store::head::rows(s);
    let part = layout::rows_part(s);
    let m = regions::keep::retain::<regions::Row, _>(
        &mut s[part],
        n,
        |r| -> bool
            requires { length r.now ≡ 8 * row_size }
            ensures { (x : Row) → words r.now ≡ row_words x → result ≡ stays p.conn p.from p.to x }
        { !goes(regions::read::<regions::Row>(r, 0), p) },
    );
    words::put(s, layout::ROWS, m as u64);
    n - m
}

// d rows less of the connection x, none of which owned its request.
fn count_less(s: &mut [u8], x: u64, d: u64)
    requires { Shown s.old }
    ensures { Tallies s.old s.new (lessen x d) }
{
    store::counting::adjust(
        s,
        x,
        |c| -> Option<regions::Conn>
            ensures { result ≡ less d c }
        {
            if d < c.held {
                Some(regions::Conn {
                    held: c.held - d,
                    ..c
                })
            } else {
                None
            }
        },
    );
}

// The candidate of the connection n goes from every request under the keys from `from` to `to`, both with it, that it does not own.
pub fn cut_between(s: &mut [u8], n: u64, from: ident::Key, to: ident::Key)
    requires { Kept s.old }
    ensures { Makes s.old s.new (λ t. Unit {0}) (cuts n (between (key_num from) (key_num to))) }
{
    let a = regions::Key::from(from);
    let b = regions::Key::from(to);
    let p = Span {
        conn: n,
        from: a,
        to: b,
    };
    let d = drop_rows(s, p);
    count_less(s, n, d as u64);
}

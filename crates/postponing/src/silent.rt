// Owners whose time is over, where none of them has a place: one pass over the rows takes theirs out. In between the bytes write rows
// and their tally (`Shorn`).
ghost use Rattle.std.specs.Prelude.{◌≡◌, ◌≤◌, ◌<◌};
ghost use Rattle.store.specs.Shown.{rows_in, Shown, Kept};
ghost use Rattle.requests.specs.Changes.{Makes};
ghost use Rattle.announcing.specs.Drops.{RowKept};
ghost use Rattle.postponing.specs.Silent.{Unburdened, dropped_all, is_due};

use store::rows::Window;

// Whether the row says an owner whose time is over.
pub fn is_due(r: regions::Row, clock: u64) -> bool
    ensures { result ≡ is_due clock r }
{
    r.owns() & (r.deadline <= clock)
}

// The i-th row: put behind the m that stay, unless its owner's time is over. Answers how many stay. (A step of a pass: no `keep::retain`, since a row
// that goes is counted off in the same store, which a closure over its bytes cannot change.)
fn drop_row(s: &mut [u8], m: usize, i: usize, clock: u64) -> usize
    requires { Shown s.old × (m ≤ i) × (i < rows_in s.old) }
    ensures { RowKept s.old s.new (is_due clock) m i result }
{
    let r = store::rows::row_at(s, i);
    if is_due(r, clock) {
        store::counting::count_out(s, r.conn, 1);
        return m;
    }
    announcing::dropping::keep_row(s, m, i, r);
    m + 1
}

// The owners whose time is over go.
#[tactic(auto, using(announcing::proofs::Lent::kept_long))]
pub fn drop_due(s: &mut [u8], clock: u64)
    requires { Kept s.old }
    ensures { Makes s.old s.new (Unburdened clock) (dropped_all clock) }
{
    let n = store::head::rows(s);
    let mut m = 0;
    for i in 0..n {
        m = drop_row(s, m, i, clock);
    }
    let rest = Window { from: m, to: n };
    store::rows::drop_rows(s, rest);
}

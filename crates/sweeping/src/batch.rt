// The keys that a sweep hands out: those of the rows after the known cursor, then those from the start on.
//
// Rows ascend by key, so the rows of a key stand together: a key is handed out at its last row.
ghost use Rattle.std.specs.Prelude.{◌≡◌, min, ◌+◌, ◌*◌, ◌≤◌, ◌<◌, length};
ghost use Rattle.std.proofs.Math.Option.{none};
ghost use Rattle.ident.specs.Words.{maybe_key_num};
ghost use Rattle.machine.specs.Call.{key_bytes};
ghost use Rattle.store.specs.Flat.{Flat};
ghost use Rattle.store.specs.Image.{Shows};
ghost use Rattle.store.specs.Shown.{limit_in, rows_in, Shown, Kept};
ghost use Rattle.announcing.specs.Evicts.{part};
ghost use Rattle.cursors.specs.InWords.{Stands};
ghost use Rattle.sweeping.specs.Batches.{last_row, Put, Walks, behind, BeginsAt, AfterCursor, AfterKnown};

use std::ops::Bound;
use store::rows::Window;

// How many keys are handed out, and the last of them.
#[derive(Clone, Copy)]
pub struct Batch {
    pub count: usize,
    pub last: Option<ident::Key>,
}

impl Batch {
    pub fn nothing() -> Self
        ensures { (result.count ≡ 0) × Stands result.last none }
    {
        Batch {
            count: 0,
            last: None,
        }
    }

    // Hands out the key of one row behind those handed out.
    fn hand(self, out: &mut [u8], r: regions::Row) -> Self
        requires { key_bytes * self.count + key_bytes ≤ length out.old }
        ensures { Put out.old out.new self r result }
    {
        let k = announcing::evict::key_of(r);
        lent_lists::put_key(out, self.count, k);
        Batch {
            count: self.count + 1,
            last: Some(k),
        }
    }
}

// Whether r, the row before the j-th, is the last of its key among those before `to`.
pub fn ends_key(s: &[u8], r: regions::Row, j: usize, to: usize) -> bool
    requires { Shown s.now × (j ≤ to) × (to ≤ rows_in s.now) }
    ensures { (f : Flat) → Shows s.now f → result ≡ last_row r (part j to f.rows) }
{
    if j == to {
        return true;
    }
    let q = store::rows::row_at(s, j);
    regions::Key::from(r) != regions::Key::from(q)
}

// Hands out the keys of a window's rows, behind those of v, as long as there are fewer than `most`. (`most` is a limit of the machine: `out` may be longer. Plans, owners
// and the next look walk over keys in the same way, and stop, pass and add up otherwise: one walk over a closure would ask in clauses how what it keeps goes on, longer than the loop.)
pub fn keys_in(s: &[u8], rows: Window, most: usize, out: &mut [u8], v: Batch) -> Batch
    requires { Shown s.now × (rows.to ≤ rows_in s.now) × (v.count ≤ most) × (v.count + rows.to ≤ limit_in s.now + rows.from) × (key_bytes * min most (limit_in s.now) ≤ length out.old) }
    ensures { Walks s.now rows.from rows.to most out.old out.new v result }
{
    let mut w = v;
    for i in rows.from..rows.to {
        if w.count == most {
            return w;
        }
        let r = store::rows::row_at(s, i);
        if ends_key(s, r, i + 1, rows.to) {
            w = w.hand(out, r);
        }
    }
    w
}

// ---- a cursor

// The first row whose key comes after the cursor c; the first of all, if that is none.
pub fn after_cursor(s: &[u8], c: Option<ident::Key>) -> usize
    requires { Kept s.now }
    ensures { AfterCursor s.now (maybe_key_num c) result × BeginsAt s.now (behind c) result }
{
    let Some(k) = c else {
        return 0;
    };
    store::rows::seek_row(s, Bound::Excluded(regions::Key::from(k)))
}

// The first row whose key comes after the known cursor.
pub fn after_known(s: &[u8]) -> usize
    requires { Kept s.now }
    ensures { AfterKnown s.now result }
{
    let c = cursors::cursor_at(s, store::layout::KNOWN);
    after_cursor(s, c)
}

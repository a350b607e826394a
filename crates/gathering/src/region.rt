// A region of rows that wait, in the order of their keys: looked up, and one put in.
ghost use Rattle.std.specs.Prelude.{◌+◌, ◌*◌, ◌≤◌, length};
ghost use Rattle.ident.specs.Words.{hash_num};
ghost use Rattle.words.specs.Words.{words};
ghost use Rattle.regions.specs.Rows.{row_size, key_number};
ghost use Rattle.gathering.specs.Aside.{space, Empty, KeyIn, PutIn, WaitsAt};

use crate::beside::SPACE;
use regions::listed::Records;
use regions::{ROW, Row};
use std::ops::Bound;

// Words of the region.
const WORDS: usize = SPACE * ROW;

// The same in bytes.
pub const ROOM: usize = WORDS * 8;

// Makes the region empty.
pub fn clear(new: &mut [u8; ROOM])
    ensures { Empty (words new.new) }
{
    words::clear(new, 0, WORDS);
}

// Whether one of the rows has the key k.
fn has_key(rows: Records<Row>, k: regions::Key) -> bool
    ensures { KeyIn (words rows.entry.bytes.now) rows.entry.count (key_number k) result }
{
    let from = regions::seek_row(rows.bytes, rows.count, Bound::Included(k));
    let to = regions::seek_row(rows.bytes, rows.count, Bound::Excluded(k));
    from < to
}

// Whether one of the rows is at the hash h, under either kind.
pub fn waits_at(rows: Records<Row>, h: ident::Hash) -> bool
    requires { rows.count ≤ space }
    ensures { WaitsAt (words rows.entry.bytes.now) rows.entry.count (hash_num h) result }
{
    let a = regions::Key::from(ident::Key::from(ident::Txid(h)));
    let b = regions::Key::from(ident::Key::from(ident::Wtxid(h)));
    has_key(rows, a) || has_key(rows, b)
}

// Puts the row y in its place among the m that wait.
pub fn put_in(new: &mut [u8], m: usize, y: regions::Row)
    requires { 8 * (row_size * (m + 1)) ≤ length new.old }
    ensures { PutIn (words new.old) (words new.new) m y }
{
    let k = regions::Key::from(y);
    let i = regions::seek_row(new, m, Bound::Excluded(k));
    regions::insert(new, m, i, y);
}

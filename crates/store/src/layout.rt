// What stands where in the header of a store, and where behind it its rows, connections and places lie (docs/STORE.md). A part is a range and no slice:
// some calls lend it to be read, others to be written. Each bound is written as its sum: a function of L and Q alone would have to ask that they are in
// their limits, which `Shown` says here, and its clause would be the sum again.
ghost use Rattle.store.specs.Shown.{Shown};
ghost use Rattle.store.specs.Parts.{RowsPart, ConnsPart, PlacesPart};

use crate::head;
use places::PLACE;
use regions::{CONN, ROW};
use std::ops::Range;

// Bytes of a word.
pub const WORD_BYTES: usize = 8;

// Words of the header: the format; L and Q; how many rows, connections and places are in use; next poll, in two words, and the cursors, in five each.
pub const FORMAT: usize = 0;

pub const LIMIT: usize = 1;

pub const PLACES: usize = 2;

pub const ROWS: usize = 3;

pub const CONNS: usize = 4;

pub const HELD_PLACES: usize = 5;

pub const NEXT_POLL: usize = 6;

pub const KNOWN: usize = 8;

pub const READY: usize = 13;

// The number of this format, which the word at FORMAT holds.
pub const FORMAT_NUMBER: u64 = 1;

// The bytes of the rows.
pub fn rows_part(s: &[u8]) -> Range<usize>
    requires { Shown s.now }
    ensures { RowsPart s.now result.start result.end }
{
    let l = head::limit(s);
    let from = head::HEAD * WORD_BYTES;
    let to = (head::HEAD + l * ROW) * WORD_BYTES;
    from..to
}

// The bytes of the connections.
pub fn conns_part(s: &[u8]) -> Range<usize>
    requires { Shown s.now }
    ensures { ConnsPart s.now result.start result.end }
{
    let l = head::limit(s);
    let from = (head::HEAD + l * ROW) * WORD_BYTES;
    let to = (head::HEAD + l * ROW + l * CONN) * WORD_BYTES;
    from..to
}

// The bytes of the places.
pub fn places_part(s: &[u8]) -> Range<usize>
    requires { Shown s.now }
    ensures { PlacesPart s.now result.start result.end }
{
    let l = head::limit(s);
    let q = head::places(s);
    let from = (head::HEAD + l * ROW + l * CONN) * WORD_BYTES;
    let to = (head::HEAD + l * ROW + l * CONN + q * PLACE) * WORD_BYTES;
    from..to
}

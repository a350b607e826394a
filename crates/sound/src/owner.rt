// The owner of a package place among the rows.
//
// Places and Wtxid rows both rise by hash, so the rows of a place begin a few rows behind those of the place before it. A walk from there
// says where; that is tested, not trusted.
ghost use Rattle.std.specs.Prelude.{◌≤◌};
ghost use Rattle.words.specs.Words.{words, recs, Decides};
ghost use Rattle.regions.specs.Rows.{row_size, read_row, quad_number};
ghost use Rattle.store.specs.FlatSound.{count_rows, owns_key};
ghost use Rattle.sound_rows.specs.Rows.{RowsSound};

use regions::listed::Records;
use regions::{Key, Quad, Row};
use sound_rows::group;
use sound_rows::part::Part;
use std::ops::Bound;

// Whether one of the rows owns the Wtxid key of the hash h, whose rows are guessed to begin at the i-th.
pub fn is_owned(rows: Records<Row>, h: Quad, i: usize) -> bool
    ensures { RowsSound (recs row_size read_row rows.entry.count (words rows.entry.bytes.now))
        → Decides result (1 ≤ count_rows (owns_key (quad_number h)) (recs row_size read_row rows.entry.count (words rows.entry.bytes.now))) }
{
    let k = Key {
        kind: ident::Kind::Wtxid,
        hash: h,
    };
    let from = regions::near::seek_row_near(rows.bytes, rows.count, Bound::Included(k), i);
    let to = group::run_end(Part::new(rows, from, rows.count), h);
    group::owners(Part::new(rows, from, to)) >= 1
}

// Where the rows of the Wtxid key of the hash h begin, if they begin at the row `at` or behind it: from there on the steps double, then what is left is halved, so that a walk
// pays for the rows between two places. (The answer is tested by who takes it. `selecting` has the same search with a contract, over the bytes of a whole store.)
pub fn walk_to(rows: Records<Row>, h: Quad, at: usize) -> usize {
    let k = Key {
        kind: ident::Kind::Wtxid,
        hash: h,
    };
    let mut lo = at;
    let mut hi = rows.count;
    let mut step = 0;
    while lo < hi {
        let wide = hi - lo;
        let d = if step < wide { step } else { wide / 2 };
        if regions::key_less(regions::key_at(rows.bytes, lo + d), k) {
            lo = lo + d + 1;
            step = 2 * d + 1;
        } else {
            hi = lo + d;
        }
    }
    lo
}

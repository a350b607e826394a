// The test of the rows, those of one hash over both kinds after the other: each fit, in the order of keys, one mark for each request; few of a hash, no connection twice, one owner at most.
ghost use Rattle.std.specs.Prelude.{◌≡◌, ◌+◌, ◌≤◌, ◌<◌, true};
ghost use Rattle.words.specs.Words.{words, recs, Decides};
ghost use Rattle.regions.specs.Rows.{row_size, read_row, quad_number};
ghost use Rattle.store.specs.FlatSound.{count_rows, hash_at, owns};
ghost use Rattle.sound_rows.specs.Rows.{RowsSound, MarkFits, mark_for};
ghost use Rattle.sound_rows.specs.Parts.{rows_of};
ghost use Rattle.sound_rows.specs.Groups.{row_at, Least, Run, Apart, Once, Distinct, Walked, GroupFits, GroupsSound};

use crate::candidate;
use crate::part::Part;
use ident::Kind;
use regions::listed::Records;
use regions::{Key, Quad, Row};
use std::ops::Bound;

// Slots in which the connections of a hash are marked.
const SLOTS: usize = 1024;

// The hash of the i-th row.
fn hash_at(rows: Records<Row>, i: usize) -> Quad
    requires { i < rows.count }
    ensures { quad_number result ≡ hash_at (row_at (words rows.entry.bytes.now) i) }
{
    let r = rows.get(i);
    r.hash
}

// Whether two hashes are equal. (The derived test, whose clause is of the four words: that the numbers are equal exactly if these are holds
// of words within their range, and is told once here for all callers.)
pub fn same_hash(a: Quad, b: Quad) -> bool
    ensures { Decides result (quad_number a ≡ quad_number b) }
{
    a == b
}

// The least hash of the two rows that come next, of those from i to m and of those from j on.
fn least_hash(rows: Records<Row>, i: usize, m: usize, j: usize) -> Quad
    requires { (m ≤ rows.count) × (i ≤ m) × (j ≤ rows.count) × (i + j < m + rows.count) }
    ensures { Least (words rows.entry.bytes.now) i m j rows.entry.count (quad_number result) }
{
    if i == m {
        return hash_at(rows, j);
    }
    if j == rows.count {
        return hash_at(rows, i);
    }
    let x = hash_at(rows, i);
    let y = hash_at(rows, j);
    if regions::quad_less(y, x) {
        return y;
    }
    x
}

// The first of the rows whose hash is above h, or the part's end.
pub fn run_end(part: Part, h: Quad) -> usize
    ensures { Run (words part.entry.rows.bytes.now) part.entry.from part.entry.to (quad_number h) result }
{
    for i in part.from..part.to {
        if regions::quad_less(h, hash_at(part.rows, i)) {
            return i;
        }
    }
    part.to
}

// Whether no connection of `mine` is in a later one of them, or in one of `others`. (A loop with two ways to a no: in `all` they would be
// one test, and a closure with a contract of its own.)
#[tactic(auto, using(crate::proofs::Groups::parted))]
fn apart(mine: Part, others: Part) -> bool
    ensures { Decides result (Apart (rows_of others.entry) (rows_of mine.entry)) }
{
    for k in mine.from..mine.to {
        let r = mine.rows.get(k);
        if regions::find_conn_in(mine.rows.bytes, k + 1, mine.to, r.conn).is_some() {
            return false;
        }
        if regions::find_conn_in(others.rows.bytes, others.from, others.to, r.conn).is_some() {
            return false;
        }
    }
    true
}

// How many of the rows own their request.
pub fn owners(part: Part) -> u64
    ensures { (result ≡ count_rows owns (rows_of part.entry)) × (result ≤ part.entry.to) }
{
    let mut sum = 0;
    for i in part.from..part.to {
        let r = part.rows.get(i);
        sum += u64::from(r.owns());
    }
    sum
}

// What a walk along the rows of one hash has found: where they end, how many own their request, whether marks show that no connection is in two of them, nor in a row that was
// marked before (they do not always where it is so), and whether each is fit, all have one mark, and the row behind them has a higher hash.
#[derive(Clone, Copy)]
struct Found {
    to: usize,
    owners: u64,
    once: bool,
    fit: bool,
}

// The mark that the rows at the front of a part should have, if there are any.
fn mark_at(part: Part, kind: Kind) -> u64
    ensures { MarkFits kind result × (part.entry.from < part.entry.to → result ≡ mark_for kind (row_at (words part.entry.rows.bytes.now) part.entry.from)) }
{
    if part.from == part.to {
        return 0;
    }
    candidate::mark_of(part.rows.get(part.from), kind)
}

// Walks along the rows of the hash h, with which the part of a half may begin, and marks the slots of their connections. (A loop: each turn changes the slots that the next one reads. One for all
// that is asked of the rows, since where those of a hash end cannot be foretold, and each loop would guess it anew.
// Slots and mark go apart: the mark is new for each hash, the slots are one array for all.)
#[inline(always)]
fn walk(part: Part, h: Quad, kind: Kind, slots: &mut [u64; SLOTS], mark: u64) -> Found
    ensures { Walked kind (words part.entry.rows.bytes.now) part.entry.from part.entry.to (quad_number h) mark slots.old slots.new result }
{
    let fallback = mark_at(part, kind);
    let mut owners = 0;
    let mut once = true;
    let mut fit = true;
    for i in part.from..part.to {
        let r = part.rows.get(i);
        if !same_hash(r.hash, h) {
            let rises = regions::quad_less(h, r.hash);
            return Found {
                to: i,
                owners,
                once,
                fit: fit & rises,
            };
        }
        let x = r.conn as usize % SLOTS;
        let met = slots[x] == mark;
        once = once & !met;
        slots[x] = mark;
        owners += u64::from(r.owns());
        fit = fit & candidate::row_fits(r, kind, fallback);
    }
    Found {
        to: part.to,
        owners,
        once,
        fit,
    }
}

// Whether the rows a and b are of distinct connections: all are compared. (By itself: seldom called.)
#[inline(never)]
fn conns_once(a: Part, b: Part) -> bool
    ensures { Decides result (Once (rows_of a.entry) (rows_of b.entry)) }
{
    if !apart(a, b) {
        return false;
    }
    apart(b, Part::new(b.rows, b.to, b.to))
}

// Whether the rows a and b, which are those of one hash, are `most` at most, of distinct connections, and have one owner at most. There are `owned` owners; `once` if marks
// have shown that the connections are distinct.
fn group_fits(a: Part, b: Part, most: usize, owned: u64, once: bool) -> bool
    requires owners { owned ≡ count_rows owns (rows_of a) + count_rows owns (rows_of b) }
    requires distinct { once ≡ true → Distinct (rows_of a) (rows_of b) }
    ensures { Decides result (GroupFits most (rows_of a.entry) (rows_of b.entry)) }
{
    if a.to - a.from + (b.to - b.from) > most {
        return false;
    }
    if owned > 1 {
        return false;
    }
    if once {
        return true;
    }
    conns_once(a, b)
}

// Whether each row is fit, keys do not fall and rows of one key have one mark; and each hash has at most `most` rows over both kinds, no connection twice, and one owner at most.
// Takes the rows of one hash after the other from both halves of the rows, Txid and Wtxid. (In rows that are not in order the halves may part anywhere: a row of the other
// kind is not fit.)
pub fn rows_fit(rows: Records<Row>, most: usize) -> bool
    ensures { Decides result (RowsSound (recs row_size read_row rows.entry.count (words rows.entry.bytes.now))
        × GroupsSound most (recs row_size read_row rows.entry.count (words rows.entry.bytes.now))) }
{
    let first = Key {
        kind: Kind::Wtxid,
        hash: Quad::ZERO,
    };
    let n = rows.count;
    let m = regions::seek_row(rows.bytes, n, Bound::Included(first));
    let mut slots = [0; SLOTS];
    let mut i = 0;
    let mut j = m;
    // a merge of two runs, a hash at a time: no one index counts
    while i + j < m + n {
        let h = least_hash(rows, i, m, j);
        let mark = (i + j + 1) as u64;
        let a = walk(Part::new(rows, i, m), h, Kind::Txid, &mut slots, mark);
        let b = walk(Part::new(rows, j, n), h, Kind::Wtxid, &mut slots, mark);
        if !a.fit {
            return false;
        }
        if !b.fit {
            return false;
        }
        let txid = Part::new(rows, i, a.to);
        let wtxid = Part::new(rows, j, b.to);
        if !group_fits(txid, wtxid, most, a.owners + b.owners, a.once & b.once) {
            return false;
        }
        i = a.to;
        j = b.to;
    }
    true
}

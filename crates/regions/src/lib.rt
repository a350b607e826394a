// Records of words in regions of the lent store: candidate rows and connections (document 01, "What a state holds", module 2).
//
// A region is a slice whose word 0 is the region's first word. It holds records of a fixed number of words, in order, and zeros
// behind them up to its capacity, so that a list of records has one image. Contracts say what happens to any words, and what happens
// to a region that holds a list of records: an insertion in the words is an insertion in the list. A `requires` says only that the
// records in question lie within the slice. How many records a slice holds stands beside it: its length says only how many it can, and
// the number is a word of the store's header. A scan goes by the index, of which its contract speaks: with `find` or `any` over a range
// where it looks for one.
#![tactic(auto)]

ghost use Rattle.std.specs.Prelude.{◌≡◌, ℕ, ◌+◌, ◌*◌, ◌≤◌, ◌<◌, length, get_or, take, drop, ltb, min};
ghost use Rattle.words.specs.Words.{words, recs, splice};
ghost use Rattle.regions.specs.declared.Row.{Row};
ghost use Rattle.regions.specs.declared.Conn.{Conn};
ghost use Rattle.ident.specs.Number.{top};
ghost use Rattle.ident.specs.Words.{hash_num};
ghost use Rattle.regions.specs.Keys.{Words, KeyWords};
ghost use Rattle.regions.specs.Kinds.{row_kind, row_whole, conn_kind, conn_whole};
ghost use Rattle.regions.specs.Numbered.{numbered, start_numbered};
ghost use Rattle.regions.specs.Order.{Sought, IsLowerBound, FoundFirst};
ghost use Rattle.regions.specs.Rows.{row_size, conn_size, quad_words, read_quad, quad_number, row_words, read_row};
ghost use Rattle.regions.specs.Rows.{key_number, start_number, key_of, row_key, row_conn, conn_words, read_conn, conn_key};

use std::ops::Bound;

pub mod keep;
pub mod listed;
pub mod near;
pub mod ranges;
mod kinds; // kinds.rt: what a kind of record is, and what is done to records of any kind
mod row_bits; // row_bits.rt: a row's key, and what its bits say

pub use kinds::{
    Record, WholeRecord, copy, copy_down, insert, move_up, read, remove, truncate, write,
};
pub use row_bits::RowBits;

// Words of a row, and where behind its hash they stand.
pub const ROW: usize = 9;

const CONN_AT: usize = 4;

const READY_AT: usize = 5;

const PRIO_AT: usize = 6;

const DEADLINE_AT: usize = 7;

const BITS_AT: usize = 8;

// Words of a connection's entry, and where behind its number they stand.
pub const CONN: usize = 3;

const HELD_AT: usize = 1;

const OWNED_AT: usize = 2;

// A hash as four words, w3 the most significant: the words stand in that order, so that the derived one is that of the numbers.
// (No ident::Hash: an array is a list of any length in the logic, and the laws of records, `sized` and `back`, are of every value.)
#[derive(Clone, Copy, Debug, PartialEq, Eq, PartialOrd, Ord)]
pub struct Quad {
    pub w3: u64,
    pub w2: u64,
    pub w1: u64,
    pub w0: u64,
}

impl Quad {
    // Where no hash is: a cursor's of no key, a combined one of no package. And the least, from which a search of a kind's rows begins.
    pub const ZERO: Quad = Quad {
        w3: 0,
        w2: 0,
        w1: 0,
        w0: 0,
    };
}

// What rows are in the order of: the kind, whose number is bit 0 of a row's bits, then the hash.
#[derive(Clone, Copy, Debug, PartialEq, Eq, PartialOrd, Ord)]
pub struct Key {
    pub kind: ident::Kind,
    pub hash: Quad,
}

// Where no row begins: behind the greatest key.
const BEHIND_ALL: Bound<Key> = Bound::Excluded(Key {
    kind: ident::Kind::Wtxid,
    hash: Quad {
        w3: u64::MAX,
        w2: u64::MAX,
        w1: u64::MAX,
        w0: u64::MAX,
    },
});

// A candidate of a request. The deadline is 0 unless it owns the request; bits, packed as the bytes of a store are: 1 Wtxid kind, 2 item is v, 4 preferred, 8 owns, 16 mark.
// (`row_bits` says what each stands for: methods of a row take them apart by divisions, as the specs do, and a `RowBits` makes their sum.)
#[derive(Clone, Copy)]
pub struct Row {
    pub hash: Quad,
    pub conn: u64,
    pub ready: u64,
    pub prio: u64,
    pub deadline: u64,
    pub bits: u64,
}

// A connection, how many announcements it has, and how many requests it owns.
#[derive(Clone, Copy)]
pub struct Conn {
    pub conn: u64,
    pub held: u64,
    pub owned: u64,
}

// ---- hashes and keys as rows have them

impl From<ident::Hash> for Quad {
    ghost from_gives = { Words };

    fn from(h: ident::Hash) -> Quad {
        let w = h.words;
        Quad {
            w0: w[0],
            w1: w[1],
            w2: w[2],
            w3: w[3],
        }
    }
}

impl From<Quad> for ident::Hash {
    ghost from_gives = { λ q h. hash_num h ≡ quad_number q };

    fn from(q: Quad) -> ident::Hash {
        let words = [q.w0, q.w1, q.w2, q.w3];
        ident::Hash { words }
    }
}

impl From<ident::Key> for Key {
    ghost from_gives = { KeyWords };

    fn from(k: ident::Key) -> Key {
        Key {
            kind: k.kind,
            hash: Quad::from(k.hash),
        }
    }
}

// The hash at the word a.
pub fn read_quad(s: &[u8], a: usize) -> Quad
    requires { 8 * (a + 4) ≤ length s.now }
    ensures { result ≡ read_quad (drop a (words s.now)) }
{
    let w0 = words::get(s, a);
    let w1 = words::get(s, a + 1);
    let w2 = words::get(s, a + 2);
    let w3 = words::get(s, a + 3);
    Quad { w0, w1, w2, w3 }
}

pub fn write_quad(s: &mut [u8], a: usize, q: Quad)
    requires { 8 * (a + 4) ≤ length s.old }
    ensures { words s.new ≡ splice (words s.old) a (quad_words q) }
{
    words::put(s, a, q.w0);
    words::put(s, a + 1, q.w1);
    words::put(s, a + 2, q.w2);
    words::put(s, a + 3, q.w3);
}

// ---- rows and connections

impl Record for Row {
    const WORDS: usize = ROW;

    ghost WORDS = { row_size };

    ghost Value = { Row };

    ghost to_words = { row_words };

    ghost laws = { row_kind };
}

impl WholeRecord for Row {
    ghost as_words = { row_words };

    ghost from_words = { read_row };

    fn read_at(s: &[u8], a: usize) -> Row {
        Row {
            hash: read_quad(s, a),
            conn: words::get(s, a + CONN_AT),
            ready: words::get(s, a + READY_AT),
            prio: words::get(s, a + PRIO_AT),
            deadline: words::get(s, a + DEADLINE_AT),
            bits: words::get(s, a + BITS_AT),
        }
    }

    fn write_at(self, s: &mut [u8], a: usize) {
        write_quad(s, a, self.hash);
        words::put(s, a + CONN_AT, self.conn);
        words::put(s, a + READY_AT, self.ready);
        words::put(s, a + PRIO_AT, self.prio);
        words::put(s, a + DEADLINE_AT, self.deadline);
        words::put(s, a + BITS_AT, self.bits);
    }

    ghost laws = { row_whole };
}

impl Record for Conn {
    const WORDS: usize = CONN;

    ghost WORDS = { conn_size };

    ghost Value = { Conn };

    ghost to_words = { conn_words };

    ghost laws = { conn_kind };
}

impl WholeRecord for Conn {
    ghost as_words = { conn_words };

    ghost from_words = { read_conn };

    fn read_at(s: &[u8], a: usize) -> Conn {
        Conn {
            conn: words::get(s, a),
            held: words::get(s, a + HELD_AT),
            owned: words::get(s, a + OWNED_AT),
        }
    }

    fn write_at(self, s: &mut [u8], a: usize) {
        words::put(s, a, self.conn);
        words::put(s, a + HELD_AT, self.held);
        words::put(s, a + OWNED_AT, self.owned);
    }

    ghost laws = { conn_whole };
}

// ---- searches

// Whether the hash a is the smaller number: the derived order, which by this clause is that of the numbers. (Callers take it for that clause: `<` says an order of
// fields, and each would cite the law.)
pub fn quad_less(a: Quad, b: Quad) -> bool
    ensures { result ≡ ltb (quad_number a) (quad_number b) }
{
    a < b
}

// Whether the key a comes before b: the derived order, which by this clause is that of the numbers.
pub fn key_less(a: Key, b: Key) -> bool
    ensures { result ≡ ltb (key_number a) (key_number b) }
{
    a < b
}

// The key of the i-th row. (Five of the row's nine words: `Key::from` takes a row, of all nine.)
pub fn key_at(s: &[u8], i: usize) -> Key
    requires { 8 * (row_size * (i + 1)) ≤ length s.now }
    ensures { result ≡ key_of (read_row (take row_size (drop (row_size * i) (words s.now)))) }
{
    let a = i * ROW;
    let kind = ident::Kind::from(words::get(s, a + BITS_AT) % 2);
    let hash = read_quad(s, a);
    Key { kind, hash }
}

// Whether the key m stands before the rows from `start` on.
pub fn falls_short(m: Key, start: Bound<Key>) -> bool
    ensures { result ≡ ltb (key_number m) (start_number start) }
{
    match start {
        Bound::Included(k) => key_less(m, k),
        Bound::Excluded(k) => !key_less(k, m),
        Bound::Unbounded => false,
    }
}

// The key of a kind's number and a hash.
fn key_with(kind: u64, hash: Quad) -> Key
    requires { kind < 2 }
    ensures { (key_number result ≡ numbered kind hash) × (numbered kind hash < 2 * top) }
{
    Key {
        kind: ident::Kind::from(kind),
        hash,
    }
}

// Where rows begin by any number for a kind, and a hash: those that do not come before the two (Included), or that come after them
// (Excluded). No row has another number than 0 or 1: all come before a greater one.
pub fn start_at(start: Bound<(u64, Quad)>) -> Bound<Key>
    ensures { start_number result ≡ min (start_numbered start) (2 * top) }
{
    match start {
        Bound::Included((kind, hash)) if kind < 2 => Bound::Included(key_with(kind, hash)),
        Bound::Excluded((kind, hash)) if kind < 2 => Bound::Excluded(key_with(kind, hash)),
        Bound::Included(_) | Bound::Excluded(_) => BEHIND_ALL,
        Bound::Unbounded => Bound::Unbounded,
    }
}

// Whether a hash under any number for a kind comes before another one, as `key_less` says it of keys. (By the fields: of pairs the derived order would want the law of `Quad`'s again.)
pub fn numbered_less(a: (u64, Quad), b: (u64, Quad)) -> bool
    ensures { result ≡ ltb (numbered a.0 a.1) (numbered b.0 b.1) }
{
    if a.0 != b.0 {
        return a.0 < b.0;
    }
    quad_less(a.1, b.1)
}

// Binary search, whose steps are no range: the first of the indices below n that does not fall short, or n.
pub fn lower_bound<F: Fn(usize) -> bool>(n: usize, falls_short: F) -> usize
    requires { (i : ℕ) → i < n → F.pre falls_short i }
    ensures { IsLowerBound (F.post falls_short) n result }
{
    let mut lo = 0;
    let mut hi = n;
    while lo < hi {
        let mid = lo + (hi - lo) / 2;
        if falls_short(mid) {
            lo = mid + 1;
        } else {
            hi = mid;
        }
    }
    lo
}

// The first of n rows whose key does not stand before `start`, or n.
pub fn seek_row(s: &[u8], n: usize, start: Bound<Key>) -> usize
    requires { 8 * (row_size * n) ≤ length s.now }
    ensures { Sought (recs row_size row_key n (words s.now)) n (start_number start) result }
{
    lower_bound(
        n,
        |i| -> bool
            requires { 8 * (row_size * (i + 1)) ≤ length s.now }
            ensures { result ≡ ltb (row_key (take row_size (drop (row_size * i) (words s.entry.now)))) (start_number start) }
        { falls_short(key_at(s, i), start) },
    )
}

// The first of n entries whose connection is at least c, or n.
pub fn seek_conn(s: &[u8], n: usize, c: u64) -> usize
    requires { 8 * (conn_size * n) ≤ length s.now }
    ensures { Sought (recs conn_size conn_key n (words s.now)) n c result }
{
    lower_bound(
        n,
        |i| -> bool
            requires { 8 * (conn_size * (i + 1)) ≤ length s.now }
            ensures { result ≡ ltb (get_or (words s.entry.now) (i * conn_size) 0) c }
        { words::get(s, i * CONN) < c },
    )
}

// The first of the rows from .. to whose connection is c, if there is one.
pub fn find_conn_in(s: &[u8], from: usize, to: usize, c: u64) -> Option<usize>
    requires { (from ≤ to) × (8 * (row_size * to) ≤ length s.now) }
    ensures { FoundFirst (recs row_size row_conn to (words s.now)) from to c result }
{
    (from..to).find(|&i| words::get(s, i * ROW + CONN_AT) == c)
}

// Where the entry of a connection is: guesses that are tried, and a search where they fail.
//
// A window of entries has a first table of slots and behind it a second, a fourth as long, for entries that lost their slot to another
// one. A slot has where an entry is, counted from the window's first. What is guessed is tested before it is taken, so no contract says
// what the slots hold.
ghost use Rattle.std.specs.Prelude.{◌≡◌, ◌+◌, ◌/◌, ◌^◌, ◌≤◌, ◌<◌, length, get_or};
ghost use Rattle.words.specs.Words.{words, Decides};
ghost use Rattle.sound_conns.specs.Conns.{names, Place, many};

use crate::{MANY, Pass};
use regions::listed::Records;
use regions::{CONN, Conn};

const WORD: u64 = 0x1_0000_0000;

const TOP: u64 = 0x8000_0000_0000_0000;

// How a connection's slot in the first table is found: from the connection as it is, or spread in one of two ways.
#[derive(Clone, Copy)]
pub enum Way {
    Plain,
    Spread,
    SpreadAnew,
}

// The tables of a window while they are filled: the slots of both, and the number of the first's less one.
pub struct Filling<'a> {
    pub slots: &'a mut [u16],
    pub mask: u64,
    ghost narrow: { mask < 2 ^ 32 },
    ghost roomy: { mask + 1 + mask / 4 < length slots.now },
}

// The filled tables: the same, and how the first was filled.
#[derive(Clone, Copy)]
pub struct Guesses<'a> {
    pub slots: &'a [u16],
    pub mask: u64,
    pub way: Way,
    ghost narrow: { mask < 2 ^ 32 },
    ghost roomy: { mask + 1 + mask / 4 < length slots.now },
}

// Whether the i-th entry is x's. (tallying has the same test. Its clause is of every list of entries that the words may hold, this one of `names`, and each proof takes it so.)
#[tactic(auto, using(crate::proofs::Entries::is_name))]
fn is_entry(conns: Records<Conn>, i: usize, x: u64) -> bool
    ensures { Decides result ((i < conns.entry.count) × (get_or (names conns.entry.count (words conns.entry.bytes.now)) i 0 ≡ x)) }
{
    i < conns.count && words::get(conns.bytes, i * CONN) == x
}

// How many of m entries a window has.
fn windowed(m: usize) -> usize
    ensures { (result ≤ m) × (result ≤ many) }
{
    m.min(MANY)
}

// ---- the search

// 1 if k is not above x, else 0; numbers that differ in the lowest bit alone count as equal. Written so that no branch is compiled: a
// processor that guesses which way a search goes is wrong half of the time. (Tried with `if k <= x` in `ahead`, which is compiled to a branch: of connections
// chosen so that the guesses fail, 8,192 of 100,000 rows took 9.7 ms in place of 5.2.)
fn not_above(k: u64, x: u64) -> u64
    ensures { result ≤ 1 }
{
    (x / 2 + TOP - k / 2) / TOP
}

// `half` if k is not above x, else 0.
fn ahead(half: usize, k: u64, x: u64) -> usize
    ensures { result ≤ half }
{
    half & (not_above(k, x) * 0xffff_ffff) as usize
}

// The last of a window's entries whose connection is not above x, or the one behind it, or the window's first. (By halves: searches of
// several rows overlap in the processor, and quarters, with three loads a step, were slower.)
fn near(pass: Pass, x: u64) -> usize {
    let mut base = pass.lo;
    let mut wide = windowed(pass.conns.count - pass.lo);
    // the steps are the halvings of `wide`: no index counts
    while 1 < wide {
        let half = wide / 2;
        base += ahead(half, words::get(pass.conns.bytes, (base + half) * CONN), x);
        wide -= half;
    }
    base
}

// Where x's entry is, or the number of entries: a search in the window from lo on, and one among all where that does not find it.
fn seek_entry(pass: Pass, x: u64) -> usize
    ensures { Place (names pass.entry.conns.count (words pass.entry.conns.bytes.now)) pass.entry.conns.count x result }
{
    let conns = pass.conns;
    let a = near(pass, x);
    if is_entry(conns, a, x) {
        return a;
    }
    let b = a.saturating_sub(1);
    if is_entry(conns, b, x) {
        return b;
    }
    let i = regions::seek_conn(conns.bytes, conns.count, x);
    if is_entry(conns, i, x) {
        return i;
    }
    conns.count
}

// ---- the slots

// (Spread by an odd factor for each of its halves; the low 28 bits of the sum go.)
fn spread(x: u64, way: Way) -> u64 {
    match way {
        Way::Plain => x,
        Way::Spread => (x % WORD * 0x1e37_79b1 + x / WORD * 0x2c1b_3c6d) / 0x1000_0000,
        Way::SpreadAnew => (x % WORD * 0x2545_f491 + x / WORD * 0x1b87_3593) / 0x1000_0000,
    }
}

fn low_bits(x: u64, mask: u64) -> usize
    ensures { result ≤ mask }
{
    (x & mask) as usize
}

// Where the guess of x's entry is kept.
fn slot(x: u64, way: Way, mask: u64) -> usize
    ensures { result ≤ mask }
{
    low_bits(spread(x, way), mask)
}

// Where it is kept if another entry has that slot.
fn second_slot(x: u64, mask: u64) -> usize
    requires { mask < 2 ^ 32 }
    ensures { result ≤ mask + 1 + mask / 4 }
{
    mask as usize
        + 1
        + low_bits(
            (x % WORD * 0x3c6e_f35f + x / WORD * 0x31cf_a6b9) / 0x1000_0000,
            mask / 4,
        )
}

impl<'a> Filling<'a> {
    // Keeps for the entries from lo on where they are. (Of two that meet, the later.)
    fn fill_first(&mut self, pass: Pass, way: Way) {
        for j in 0..windowed(pass.conns.count - pass.lo) {
            let x = words::get(pass.conns.bytes, (pass.lo + j) * CONN);
            let at = slot(x, way, self.mask);
            self.slots[at] = j as u16;
        }
    }

    // Keeps where x's entry is in the second table, if it lost its slot in the first. 1 if it did, else 0: a number, since its caller adds it up.
    fn give_second(&mut self, way: Way, x: u64, j: usize) -> usize
        requires { j < many }
        ensures { result ≤ 1 }
    {
        let at = slot(x, way, self.mask);
        if usize::from(self.slots[at]) == j {
            return 0;
        }
        let to = second_slot(x, self.mask);
        self.slots[to] = j as u16;
        1
    }

    // The same for each of the entries from lo on; how many lost their slot.
    fn fill_second(&mut self, pass: Pass, way: Way) -> usize
        ensures { result ≤ many }
    {
        let mut lost = 0;
        for j in 0..windowed(pass.conns.count - pass.lo) {
            let x = words::get(pass.conns.bytes, (pass.lo + j) * CONN);
            lost += self.give_second(way, x, j);
        }
        lost
    }

    // Fills both tables for the window from lo on, and says in which way the first was filled: one that loses no more than a fourth of the
    // entries, if there is one.
    fn fill(&mut self, pass: Pass) -> Way {
        let few = windowed(pass.conns.count - pass.lo) / 4;
        for way in [Way::Plain, Way::Spread] {
            self.fill_first(pass, way);
            if self.fill_second(pass, way) <= few {
                return way;
            }
        }
        self.fill_first(pass, Way::SpreadAnew);
        self.fill_second(pass, Way::SpreadAnew);
        Way::SpreadAnew
    }

    // The tables, filled for the window from lo on.
    pub fn filled(mut self, pass: Pass) -> Guesses<'a> {
        let way = self.fill(pass);
        let Filling { slots, mask } = self;
        Guesses { slots, mask, way }
    }
}

// Where x's entry is, or the number of entries: both guesses of the window from lo on are tried first. (A number, as in `seek_entry`: tried as an Option, with `own` as a
// bool, beside the two scans of sound_rows/src/group, whose figure this is.)
pub fn find_entry(pass: Pass, x: u64, guesses: Guesses) -> usize
    ensures { Place (names pass.entry.conns.count (words pass.entry.conns.bytes.now)) pass.entry.conns.count x result }
{
    let at = slot(x, guesses.way, guesses.mask);
    let a = pass.lo + usize::from(guesses.slots[at]);
    if is_entry(pass.conns, a, x) {
        return a;
    }
    let to = second_slot(x, guesses.mask);
    let b = pass.lo + usize::from(guesses.slots[to]);
    if is_entry(pass.conns, b, x) {
        return b;
    }
    seek_entry(pass, x)
}

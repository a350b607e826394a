// The test of the connections: entries that rise, within the limits, with the counts of the rows.
//
// A pass over the rows takes each off the counts of its connection's entry, and no count may fall below 0 nor be left above it. One pass
// has counters for a window of up to MANY entries, in an array of 32 KiB (2 KiB where there are FEW), so that one is enough unless
// there are more. A pass takes only the rows whose connection is above the last entry of the pass before (`done`), and not above its
// own last entry (`last`).
#![tactic(auto)]

use guesses::{Filling, Guesses};
use machine::limits::{MAX_PEER_ANNOUNCEMENTS, MAX_PEER_IN_FLIGHT};
use regions::listed::Records;
use regions::{CONN, Conn, Row};

mod guesses; // guesses.rt: where a connection's entry is

ghost use Rattle.std.specs.Prelude.{◌≡◌, ℕ, ◌+◌, ◌*◌, ◌/◌, ◌^◌, ◌≤◌, ◌<◌, [], true, length, get_or};
ghost use Rattle.words.specs.Words.{words, recs, Decides};
ghost use Rattle.machine.specs.Limits.{max_announcements};
ghost use Rattle.machine.specs.Typed.{Each};
ghost use Rattle.regions.specs.Rows.{row_size, read_row, conn_size, read_conn};
ghost use Rattle.store.specs.FlatSound.{ConnFits};
ghost use Rattle.sound_rows.specs.Rows.{RowsSound};
ghost use Rattle.sound_conns.specs.Conns.{Entries, EntryStep, names, Rising, Low, Lessening, Inside, Holds, Taking, Left, Tallying, Within, Window, LastOf, many, ConnsSound};

// A counter has in its low half how many rows its entry has left, in its high half how many of them may own their request.
const HALF: u32 = 0x1_0000;

// Entries that one pass over the rows counts.
const MANY: usize = 8192;

const FEW: usize = 512;

// Slots of a window's first table of guesses, less one.
const MANY_MASK: u64 = 16383;

const FEW_MASK: u64 = 2047;

// Slots of both tables: the second has a fourth of the first's.
const MANY_SLOTS: usize = 20_480;

const FEW_SLOTS: usize = 2_560;

// Whether the entry c is fit to stand right behind p. (No order or equality: three of its four tests are of c alone.)
fn entry_fits(p: Conn, c: Conn) -> bool
    ensures { Decides result (EntryStep p c) }
{
    c.conn > p.conn
        && c.held != 0
        && c.held <= MAX_PEER_ANNOUNCEMENTS
        && c.owned <= MAX_PEER_IN_FLIGHT
}

// Whether the entries rise by connection, from 1 on, and each has counts of at least one row and within the limits.
fn entries_fit(conns: Records<Conn>) -> bool
    ensures { Decides result (Entries (recs conn_size read_conn conns.entry.count (words conns.entry.bytes.now)))
        × (result ≡ true → Low (names conns.entry.count (words conns.entry.bytes.now))) }
{
    // the entry before: of a closure that changes it, `all` would say nothing
    let mut p = Conn {
        conn: 0,
        held: 0,
        owned: 0,
    };
    for i in 0..conns.count {
        let c = conns.get(i);
        if !entry_fits(p, c) {
            return false;
        }
        p = c;
    }
    true
}

// ---- counters

// A pass over the rows: it counts the entries from lo on, as many as it has counters for, and takes the rows whose connection is above `done`
// and not above `last`. (That the entries are fit by themselves stays a clause where it is asked: `Entries` goes by recursion, which the check does
// not take for a ghost field.)
#[derive(Clone, Copy)]
pub struct Pass<'a> {
    pub conns: Records<'a, Conn>,
    pub lo: usize,
    pub done: u64,
    pub last: u64,
    ghost within: { lo ≤ conns.count },
    ghost rising: { Rising (names conns.count (words conns.bytes.now)) },
    ghost held: { Holds done last (names conns.count (words conns.bytes.now)) lo many },
}

// The counter of an entry before a row is taken off it.
#[tactic(auto, using(crate::proofs::Tally::charged))]
fn charge(c: Conn) -> u32
    requires { ConnFits c }
    ensures { Left [] c result }
{
    c.held as u32 + c.owned as u32 * HALF
}

// Gives the pass's entries their counters, as far as there are any.
fn charge_all(pass: Pass, t: &mut [u32])
    requires { Each ConnFits (recs conn_size read_conn pass.conns.count (words pass.conns.bytes.now)) }
    ensures { Within (λ c j. Left [] c (get_or t.new j 0)) (recs conn_size read_conn pass.entry.conns.count (words pass.entry.conns.bytes.now)) pass.entry.lo (length t.old)
        × (length t.new ≡ length t.old) }
{
    for j in 0..t.len().min(pass.conns.count - pass.lo) {
        let c = pass.conns.get(pass.lo + j);
        t[j] = charge(c);
    }
}

// Takes a row off the counter of the entry k, and one that owns its request if `own` is 1 (a number: it is compared and subtracted), if k
// is among those from lo on. False if less than that is left.
fn take_off(t: &mut [u32], lo: usize, k: usize, own: u32) -> bool
    requires { own ≤ 1 }
    ensures { Lessening result t.old t.new lo k own × (length t.new ≡ length t.old) }
{
    if k < lo {
        return true;
    }
    let j = k - lo;
    if j >= t.len() {
        return true;
    }
    let v = t[j];
    if v % HALF == 0 {
        return false;
    }
    if v / HALF < own {
        return false;
    }
    t[j] = v - (1 + own * HALF);
    true
}

// Whether x is above done and not above last, by the distance from done. (One comparison: two become two branches, which are foretold badly where there
// are many connections, and the sound test of 100,000 takes a fifth longer.)
fn inside(pass: Pass, x: u64) -> bool
    ensures { Decides result (Inside pass.entry.done pass.entry.last x) }
{
    x.wrapping_sub(pass.done).wrapping_sub(1) < pass.last.saturating_sub(pass.done)
}

// Takes a row of the connection x off its entry, if x is inside. False if x has no entry, or one with too little left.
fn take_row(pass: Pass, t: &mut [u32], guesses: Guesses, x: u64, own: u32) -> bool
    requires { (length t.old ≤ many) × (own ≤ 1) }
    ensures { Taking result (names pass.entry.conns.count (words pass.entry.conns.bytes.now)) pass.entry.done pass.entry.last pass.entry.lo x own t.old t.new × (length t.new ≡ length t.old) }
{
    if !inside(pass, x) {
        return true;
    }
    let k = guesses::find_entry(pass, x, guesses);
    if k >= pass.conns.count {
        return false;
    }
    take_off(t, pass.lo, k, own)
}

// Takes the rows off the entries that the pass counts. False if a row inside has a connection without an entry, or an entry has fewer.
// (By itself: inlined, what it goes by stands on the stack, and the sound test takes up to a twentieth longer.)
// (A loop: each turn changes the counters that the next one reads.)
#[inline(never)]
fn count_rows(rows: Records<Row>, pass: Pass, t: &mut [u32], guesses: Guesses) -> bool
    requires { (length t.old ≤ many)
        × Within (λ e j. Left [] e (get_or t.old j 0)) (recs conn_size read_conn pass.conns.count (words pass.conns.bytes.now)) pass.lo (length t.old) }
    ensures { Tallying result (names pass.entry.conns.count (words pass.entry.conns.bytes.now)) (recs row_size read_row rows.entry.count (words rows.entry.bytes.now))
        (recs conn_size read_conn pass.entry.conns.count (words pass.entry.conns.bytes.now)) pass.entry.done pass.entry.last pass.entry.lo t.new × (length t.new ≡ length t.old) }
{
    for i in 0..rows.count {
        let r = rows.get(i);
        let own = u32::from(r.owns());
        if !take_row(pass, t, guesses, r.conn, own) {
            return false;
        }
    }
    true
}

// Whether nothing is left of the counters t of the entries from lo on, of which there are n in all. (Two numbers and no `Pass`: its clause is of them alone.)
fn used_up(n: usize, lo: usize, t: &[u32]) -> bool
    ensures { Decides result ((j : ℕ) → j < length t.now → lo + j < n → get_or t.now j 0 ≡ 0) }
{
    t.iter().take(n.saturating_sub(lo)).all(|v| *v == 0)
}

// Whether each of the entries that t has a counter for has its rows' counts, and each connection inside has an entry.
fn window_fits(rows: Records<Row>, pass: Pass, t: &mut [u32], guesses: Guesses) -> bool
    requires { Entries (recs conn_size read_conn pass.conns.count (words pass.conns.bytes.now)) × (length t.old ≤ many) }
    ensures { Decides result (Window (names pass.entry.conns.count (words pass.entry.conns.bytes.now)) (recs row_size read_row rows.entry.count (words rows.entry.bytes.now))
        (recs conn_size read_conn pass.entry.conns.count (words pass.entry.conns.bytes.now)) pass.entry.done pass.entry.last pass.entry.lo (length t.old)) }
{
    charge_all(pass, t);
    if !count_rows(rows, pass, t, guesses) {
        return false;
    }
    used_up(pass.conns.count, pass.lo, t)
}

// The same, with N counters and SLOTS slots on the stack, of which the first table has one more than mask says.
fn fits_with<const N: usize, const SLOTS: usize>(rows: Records<Row>, pass: Pass, mask: u64) -> bool
    requires { Entries (recs conn_size read_conn pass.conns.count (words pass.conns.bytes.now))
        × (mask < 2 ^ 32) × (mask + 1 + mask / 4 < SLOTS) × (SLOTS < 2 ^ 32) × (N ≤ many) }
    ensures { Decides result (Window (names pass.entry.conns.count (words pass.entry.conns.bytes.now)) (recs row_size read_row rows.entry.count (words rows.entry.bytes.now))
        (recs conn_size read_conn pass.entry.conns.count (words pass.entry.conns.bytes.now)) pass.entry.done pass.entry.last pass.entry.lo N) }
{
    let mut slots: [u16; SLOTS] = [0; SLOTS];
    let mut t: [u32; N] = [0; N];
    let slots = &mut slots;
    let filling = Filling { slots, mask };
    window_fits(rows, pass, &mut t, filling.filled(pass))
}

// The last connection of the many entries from lo on, or the greatest number if no entry is behind them.
#[tactic(auto, using(crate::proofs::Entries::last))]
fn last_of(conns: Records<Conn>, lo: usize) -> u64
    requires { (lo < conns.count) × Rising (names conns.count (words conns.bytes.now)) × Low (names conns.count (words conns.bytes.now)) }
    ensures { LastOf (names conns.entry.count (words conns.entry.bytes.now)) lo many result }
{
    if conns.count - lo <= MANY {
        return u64::MAX;
    }
    words::get(conns.bytes, (lo + MANY - 1) * CONN)
}

// Whether the entries are the tally of the rows, within the limits of a connection.
#[tactic(auto, using(crate::proofs::Conns::walking, crate::proofs::Entries::rising))]
pub fn conns_fit(rows: Records<Row>, conns: Records<Conn>) -> bool
    requires { rows.count ≤ max_announcements }
    ensures { RowsSound (recs row_size read_row rows.entry.count (words rows.entry.bytes.now))
        → Decides result (ConnsSound (recs row_size read_row rows.entry.count (words rows.entry.bytes.now)) (recs conn_size read_conn conns.entry.count (words conns.entry.bytes.now))) }
{
    if !entries_fit(conns) {
        return false;
    }
    if conns.count <= FEW {
        let all = Pass {
            conns,
            lo: 0,
            done: 0,
            last: u64::MAX,
        };
        return fits_with::<FEW, FEW_SLOTS>(rows, all, FEW_MASK);
    }
    let mut done = 0;
    for lo in (0..conns.count).step_by(MANY) {
        let last = last_of(conns, lo);
        let pass = Pass {
            conns,
            lo,
            done,
            last,
        };
        if !fits_with::<MANY, MANY_SLOTS>(rows, pass, MANY_MASK) {
            return false;
        }
        done = last;
    }
    true
}

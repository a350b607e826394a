// Next poll and the two cursors (document 01, module 6): one small record, read from the header of a store and written back, and
// updated by a few thin calls.
#![tactic(auto)]

ghost use Rattle.std.specs.Prelude.{◌≡◌, ◌+◌, ◌*◌, ◌≤◌, ◌∷◌, length, get_or};
ghost use Rattle.ident.specs.Words.{maybe_key_num};
ghost use Rattle.words.specs.Words.{words, splice};
ghost use Rattle.regions.specs.Rows.{quad_words, quad_number};
ghost use Rattle.machine.specs.Wrapper.{due_at, next_poll_after};
ghost use Rattle.store.specs.Image.{head_size, poll_words, cursor_words};
ghost use Rattle.store.specs.Read.{poll_is, cursor_is};
ghost use Rattle.cursors.specs.Numbers.{time_num, numbers_of, with_known, gate_at, Loads, Saves, Gated, KnownMoved};
ghost use Rattle.cursors.specs.InWords.{poll_at, known_at, ready_at, TagSays, cursor_in, written, ReadyMoved};

use machine::clock::Clock;
use machine::limits::REQUEST_POLL_INTERVAL;
use store::layout::{KNOWN, NEXT_POLL, READY};

#[derive(Clone, Copy)]
pub struct Cursors {
    pub next: Option<u64>,
    pub known: Option<ident::Key>,
    pub ready: Option<ident::Key>,
}

// ---- the words of the header

pub fn next_poll(s: &[u8]) -> Option<u64>
    requires { 8 * head_size ≤ length s.now }
    ensures { time_num result ≡ poll_is (get_or (words s.now) poll_at 0) (get_or (words s.now) (poll_at + 1) 0) }
{
    if words::get(s, NEXT_POLL) == 0 {
        return None;
    }
    Some(words::get(s, NEXT_POLL + 1))
}

pub fn set_next_poll(s: &mut [u8], m: Option<u64>)
    requires { 8 * head_size ≤ length s.old }
    ensures { words s.new ≡ splice (words s.old) poll_at (poll_words (time_num m)) }
{
    words::put(s, NEXT_POLL, u64::from(m.is_some()));
    words::put(s, NEXT_POLL + 1, m.unwrap_or(0));
}

// A cursor stands in five words from the word a on: a tag, and its hash. Tag 0 is no cursor, 1 a Txid, 2 a Wtxid: a number in a store's image (docs/STORE.md), and a
// kind from here on.
fn kind_in(tag: u64) -> Option<ident::Kind>
    ensures { TagSays tag result }
{
    match tag {
        0 => None,
        1 => Some(ident::Kind::Txid),
        _ => Some(ident::Kind::Wtxid),
    }
}

// The cursor that a tag and a hash say, whatever they are.
pub fn cursor_of(tag: u64, hash: regions::Quad) -> Option<ident::Key>
    ensures { maybe_key_num result ≡ cursor_is tag (quad_number hash) }
{
    let kind = kind_in(tag)?;
    let hash = ident::Hash::from(hash);
    Some(ident::Key { kind, hash })
}

// The cursor whose words stand from word a on.
pub fn cursor_at(s: &[u8], a: usize) -> Option<ident::Key>
    requires { 8 * (a + 5) ≤ length s.now }
    ensures { maybe_key_num result ≡ cursor_in (words s.now) a }
{
    cursor_of(words::get(s, a), regions::read_quad(s, a + 1))
}

// The tag and the hash of a cursor.
pub fn words_of(c: Option<ident::Key>) -> (u64, regions::Quad)
    ensures { result.0 ∷ quad_words result.1 ≡ cursor_words (maybe_key_num c) }
{
    let Some(k) = c else {
        return (0, regions::Quad::ZERO);
    };
    let w = regions::Key::from(k);
    (u64::from(w.kind) + 1, w.hash)
}

pub fn set_cursor(s: &mut [u8], a: usize, c: Option<ident::Key>)
    requires { 8 * (a + 5) ≤ length s.old }
    ensures { words s.new ≡ splice (words s.old) a (cursor_words (maybe_key_num c)) }
{
    let (tag, hash) = words_of(c);
    words::put(s, a, tag);
    regions::write_quad(s, a + 1, hash);
}

// ---- the record out of a store and into it

pub fn load(s: &[u8]) -> Cursors
    requires { 8 * head_size ≤ length s.now }
    ensures state { Loads s.now result }
    ensures in_words { (time_num result.next ≡ poll_is (get_or (words s.now) poll_at 0) (get_or (words s.now) (poll_at + 1) 0))
        × (maybe_key_num result.known ≡ cursor_in (words s.now) known_at) × (maybe_key_num result.ready ≡ cursor_in (words s.now) ready_at) }
{
    Cursors {
        next: next_poll(s),
        known: cursor_at(s, KNOWN),
        ready: cursor_at(s, READY),
    }
}

pub fn save(s: &mut [u8], c: Cursors)
    requires { 8 * head_size ≤ length s.old }
    ensures state { Saves s.old s.new c }
    ensures in_words { words s.new ≡ written c (words s.old) }
{
    set_next_poll(s, c.next);
    set_cursor(s, KNOWN, c.known);
    set_cursor(s, READY, c.ready);
}

// ---- the poll gate

fn due(m: Option<u64>, clock: u64) -> bool
    ensures { result ≡ due_at clock (time_num m) }
{
    m.is_none_or(|t| t <= clock)
}

fn poll_after(m: Option<u64>, clock: Clock) -> Option<u64>
    ensures { time_num result ≡ next_poll_after clock.time (time_num m) }
{
    if due(m, clock.time) {
        Some(clock.time + REQUEST_POLL_INTERVAL)
    } else {
        m
    }
}

// Whether a poll is due; if it is, the next one is 100 milliseconds later.
pub fn poll_gate(c: &mut Cursors, clock: Clock) -> bool
    ensures { (result ≡ due_at clock.time (time_num c.old.next)) × (numbers_of c.new ≡ gate_at clock.time (numbers_of c.old)) }
{
    let old = c.next;
    c.next = poll_after(old, clock);
    due(old, clock.time)
}

// ---- the known cursor

pub fn set_known(c: &mut Cursors, k: Option<ident::Key>)
    ensures { numbers_of c.new ≡ with_known (maybe_key_num k) (numbers_of c.old) }
{
    c.known = k;
}

// ---- on the bytes of a store

// The poll gate of a store.
pub fn gate(s: &mut [u8], clock: Clock) -> bool
    requires { 8 * head_size ≤ length s.old }
    ensures { Gated s.old s.new clock.time result }
{
    let mut c = load(s);
    let due = poll_gate(&mut c, clock);
    save(s, c);
    due
}

// The known cursor of a store becomes `last`. (All three are loaded and saved: so the change is `set_known`'s, whose clause says it.)
pub fn move_known(s: &mut [u8], last: Option<ident::Key>)
    requires { 8 * head_size ≤ length s.old }
    ensures { KnownMoved s.old s.new (maybe_key_num last) }
{
    let mut c = load(s);
    set_known(&mut c, last);
    save(s, c);
}

// The ready cursor of a store becomes `last`.
pub fn move_ready(s: &mut [u8], last: Option<ident::Key>)
    requires { 8 * head_size ≤ length s.old }
    ensures { ReadyMoved s.old s.new last }
{
    set_cursor(s, READY, last);
}

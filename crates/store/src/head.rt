// The header: sizes and counts, and a store made empty.
ghost use Rattle.std.specs.Prelude.{◌≡◌, ◌*◌, ◌≤◌, length};
ghost use Rattle.machine.specs.Limits.{need, max_announcements, max_places};
ghost use Rattle.machine.specs.State.{State, limits_of};
ghost use Rattle.machine.specs.Sound.{Sound};
ghost use Rattle.machine.specs.Step.{empty};
ghost use Rattle.store.specs.Image.{head_size, Writes};
ghost use Rattle.store.specs.Shown.{limit_at, places_at, rows_at, conns_at, held_places_at, Field};

use crate::layout;
use machine::limits::MAX_ALTERNATES;

// (A function for each count, of one `get`. One over `parts::Part` would name its type at each call, and would not be of L, Q and the places.)

// Words of the header.
pub const HEAD: usize = 24;

// L.
pub fn limit(s: &[u8]) -> usize
    requires { 8 * head_size ≤ length s.now }
    ensures { Field s.now limit_at (λ f. f.head.limit) result }
{
    words::get(s, layout::LIMIT) as usize
}

// A, as many candidates a hash may have. It is 8 in every store, so that no word of the header writes it.
pub fn alternates(s: &[u8]) -> usize
    requires { 8 * head_size ≤ length s.now }
    ensures { (st : State) → Sound st → Writes s.now st → result ≡ (limits_of st).alternates }
{
    MAX_ALTERNATES
}

// Q.
pub fn places(s: &[u8]) -> usize
    requires { 8 * head_size ≤ length s.now }
    ensures { Field s.now places_at (λ f. f.head.places) result }
{
    words::get(s, layout::PLACES) as usize
}

// How many rows are in use.
pub fn rows(s: &[u8]) -> usize
    requires { 8 * head_size ≤ length s.now }
    ensures { Field s.now rows_at (λ f. length f.rows) result }
{
    words::get(s, layout::ROWS) as usize
}

// How many connections are in use.
pub fn conns(s: &[u8]) -> usize
    requires { 8 * head_size ≤ length s.now }
    ensures { Field s.now conns_at (λ f. length f.conns) result }
{
    words::get(s, layout::CONNS) as usize
}

// How many package places are in use.
pub fn held_places(s: &[u8]) -> usize
    requires { 8 * head_size ≤ length s.now }
    ensures { Field s.now held_places_at (λ f. length f.places) result }
{
    words::get(s, layout::HELD_PLACES) as usize
}

// Makes any bytes of the need for L and Q those of an empty tracker.
pub fn fill(s: &mut [u8], l: usize, q: usize)
    requires { (l ≤ max_announcements) × (q ≤ max_places) × (length s.old ≡ need l q) }
    ensures { Writes s.new (empty l q) }
{
    words::clear(s, 0, s.len() / layout::WORD_BYTES);
    words::put(s, layout::FORMAT, layout::FORMAT_NUMBER);
    words::put(s, layout::LIMIT, l as u64);
    words::put(s, layout::PLACES, q as u64);
}

// The test whether lent bytes write a sound state (document 01, "Sound", refusal 3).
//
// `sound` decides it in both directions: `true` if the bytes, as far as their need, write a sound state, `false` only if they write
// none. Each part decides what FlatSound (crates/store) says of the records that one region holds: the rows (crates/sound_rows), the
// connections (crates/sound_conns), the package places. A region is a slice whose word 0 is the region's first word; that
// the records in question lie within it is a fact of `Records`, and for places a `requires`. Each byte of the need is read once or a
// few times.
#![tactic(auto)]

use machine::limits::{MAX_ALTERNATES, MAX_ANNOUNCEMENTS, MAX_PLACES};
use places::PLACE;
use regions::listed::Records;
use regions::{CONN, Conn, ROW, Row};
use store::head::{self, HEAD};
use store::layout::{FORMAT, FORMAT_NUMBER, KNOWN, NEXT_POLL, READY};

mod owner; // owner.rt: the owner of a place
mod place; // place.rt: package places

ghost use Rattle.std.specs.Prelude.{◌≡◌, ◌+◌, ◌*◌, ◌≤◌, length};
ghost use Rattle.words.specs.Words.{words, Decides};
ghost use Rattle.regions.specs.Rows.{quad_number};
ghost use Rattle.places.specs.Places.{place_size};
ghost use Rattle.machine.specs.Limits.{max_announcements};
ghost use Rattle.store.specs.Image.{head_size, SoundStore};
ghost use Rattle.sound.specs.Whole.{PollPlain, CursorPlain, SizesPlain, HeadPlain, RecordsSound};

use place::places_fit;
use sound_rows::group::same_hash;

// The first of the header's words that are zero in every sound store.
const SPARE: usize = 18;

// ---- the header (its tags as numbers: the bytes may hold any, and the test is which of them name a case)

fn poll_fits(tag: u64, time: u64) -> bool
    ensures { Decides result (PollPlain tag time) }
{
    if tag == 0 {
        return time == 0;
    }
    tag == 1
}

#[tactic(auto, using(regions::proofs::Order::zero_number))]
fn cursor_fits(tag: u64, hash: regions::Quad) -> bool
    ensures { Decides result (CursorPlain tag (quad_number hash)) }
{
    if tag == 0 {
        return same_hash(hash, regions::Quad::ZERO);
    }
    tag <= 2
}

// Format, L and Q such as opening takes, and no more records in use than there is room for.
fn sizes_fit(s: &[u8]) -> bool
    requires { 8 * head_size ≤ length s.now }
    ensures { Decides result (SizesPlain (words s.now)) }
{
    let l = head::limit(s);
    let q = head::places(s);
    words::get(s, FORMAT) == FORMAT_NUMBER
        && l != 0
        && l as u64 <= MAX_ANNOUNCEMENTS
        && q != 0
        && q as u64 <= MAX_PLACES
        && head::rows(s) <= l
        && head::conns(s) <= l
        && head::held_places(s) <= q
}

#[tactic(auto, using(crate::proofs::PlaceTests::hash_is))]
fn head_fits(s: &[u8]) -> bool
    requires { 8 * head_size ≤ length s.now }
    ensures { Decides result (HeadPlain (words s.now)) }
{
    if !sizes_fit(s) {
        return false;
    }
    if !poll_fits(words::get(s, NEXT_POLL), words::get(s, NEXT_POLL + 1)) {
        return false;
    }
    if !cursor_fits(words::get(s, KNOWN), regions::read_quad(s, KNOWN + 1)) {
        return false;
    }
    if !cursor_fits(words::get(s, READY), regions::read_quad(s, READY + 1)) {
        return false;
    }
    words::is_zero(s, SPARE, HEAD)
}

// ---- the regions

// Whether the rows, the connections and the p places at the fronts of their regions are sound, with zeros behind them. (Places
// stay bytes and a number: one is 824 words, which no value holds.)
#[tactic(auto, using(crate::proofs::StoreTests::long))]
fn records_fit(rows: Records<Row>, conns: Records<Conn>, places: &[u8], p: usize) -> bool
    requires { (8 * (place_size * p) ≤ length places.now) × (rows.count ≤ max_announcements) }
    ensures { Decides result (RecordsSound (words rows.entry.bytes.now) rows.entry.count (words conns.entry.bytes.now) conns.entry.count (words places.now) p) }
{
    if !sound_rows::group::rows_fit(rows, MAX_ALTERNATES) {
        return false;
    }
    if !sound_conns::conns_fit(rows, conns) {
        return false;
    }
    if !places_fit(places, p, rows) {
        return false;
    }
    if !words::is_zero(rows.bytes, rows.count * ROW, rows.bytes.len() / 8) {
        return false;
    }
    if !words::is_zero(conns.bytes, conns.count * CONN, conns.bytes.len() / 8) {
        return false;
    }
    words::is_zero(places, p * PLACE, places.len() / 8)
}

// Whether the bytes, as far as their need, write a sound state.
#[tactic(auto, using(crate::proofs::StoreTests::refusals))]
pub fn sound(s: &[u8]) -> bool
    ensures { Decides result (SoundStore s.now) }
{
    if s.len() < HEAD * 8 {
        return false;
    }
    if !head_fits(s) {
        return false;
    }
    let l = head::limit(s);
    let q = head::places(s);
    let x = HEAD + l * ROW;
    let y = x + l * CONN;
    let z = y + q * PLACE;
    if s.len() < z * 8 {
        return false;
    }
    let n = head::rows(s);
    let c = head::conns(s);
    let p = head::held_places(s);
    let a = x * 8;
    let b = y * 8;
    let e = z * 8;
    let rows = Records::<Row>::new(&s[HEAD * 8..a], n);
    let conns = Records::<Conn>::new(&s[a..b], c);
    records_fit(rows, conns, &s[b..e], p)
}

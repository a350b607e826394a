// The test of the package places: each written out by its words, fit, with its owner among the rows, ascending by hash.
//
// A list of hashes is where it starts in the words and its range: its length stands in another word of the place, which is tested first.
ghost use Rattle.std.specs.Prelude.{◌≡◌, ◌+◌, ◌*◌, ◌≤◌, ◌<◌, length};
ghost use Rattle.words.specs.Words.{words, recs, Decides};
ghost use Rattle.regions.specs.Rows.{row_size, read_row, quad_number};
ghost use Rattle.places.specs.Places.{place_size, list_most};
ghost use Rattle.machine.specs.Claim.{elem};
ghost use Rattle.machine.specs.Sound.{NoRepeat};
ghost use Rattle.sound_rows.specs.Rows.{RowsSound};
ghost use Rattle.sound.specs.Places.{PlaceSound, PlacesSound, PlaceFollows, hashes_in, Padded, StagePlain, fold_of, slot_count, slot_of};

use crate::owner::{is_owned, walk_to};
use machine::limits::{MAX_PARENTS, MAX_WTXIDS};
use places::{
    COMBINED, DEAD, ENQUEUED, FLAG, PARENT_COUNT, PARENTS, PLACE, SPARE, STAGE, WTXID_COUNT, WTXIDS,
};
use regions::Row;
use regions::listed::Records;
use sound_rows::group::same_hash;

// Slots in which `distinct` marks hashes, and a factor that spreads these.
const SLOTS: usize = 4096;

const SPREAD: u64 = 0x1E37_79B1;

// Whether h is among the hashes from .. to of the list that starts at the word a. (A loop: tried with `any` and a closure with a contract. The
// check left open what its yes and what its no say of the hashes by their index.)
#[tactic(auto, using(crate::proofs::Hashes::searched))]
fn has_hash(s: &[u8], a: usize, from: usize, to: usize, h: regions::Quad) -> bool
    requires { (from ≤ to) × (8 * (a + 4 * to) ≤ length s.now) }
    ensures { result ≡ elem (quad_number h) (hashes_in (words s.now) a from to) }
{
    for k in from..to {
        if same_hash(regions::read_quad(s, a + k * 4), h) {
            return true;
        }
    }
    false
}

// A hash's words in one. (Each counts for another multiple: hashes that differ in one byte alone would meet more often if the words counted alike.)
#[tactic(auto, unfolding(crate::specs::Places::fold_of))]
fn fold(h: regions::Quad) -> u64
    ensures { result ≡ fold_of h }
{
    let w2 = h.w2.wrapping_mul(3);
    let w1 = h.w1.wrapping_mul(5);
    let w0 = h.w0.wrapping_mul(7);
    h.w3.wrapping_add(w2).wrapping_add(w1).wrapping_add(w0)
}

// Where `distinct` marks a hash.
fn slot(h: regions::Quad) -> usize
    ensures { (result ≡ slot_of (quad_number h)) × (result < slot_count) }
{
    let a = fold(h);
    let b = a % 0x1_0000_0000 + a / 0x1_0000_0000;
    (b * SPREAD / 0x10_0000 % SLOTS as u64) as usize
}

// Whether the n hashes of the list that starts at the word a are distinct. The last comes first; a hash is compared with others only
// if its slot has the mark already. Slots may have any content before: the mark should be new to them, else all are compared. (A loop: each
// turn changes the slots that the next one reads.)
#[tactic(auto, using(crate::proofs::Marks::marking))]
fn distinct(s: &[u8], a: usize, n: usize, slots: &mut [u16; SLOTS], mark: u16) -> bool
    requires { 8 * (a + 4 * n) ≤ length s.now }
    ensures { Decides result (NoRepeat (hashes_in (words s.now) a 0 n)) }
{
    for k in (0..n).rev() {
        let h = regions::read_quad(s, a + k * 4);
        let x = slot(h);
        if slots[x] == mark && has_hash(s, a, k + 1, n, h) {
            return false;
        }
        slots[x] = mark;
    }
    true
}

// Whether stage, combined hash and number of wtxids go together. (The stage as a number: the bytes may hold any.)
#[tactic(auto, using(crate::proofs::Stage::staged, regions::proofs::Order::zero_number))]
fn stage_fits(stage: u64, combined: regions::Quad, n: u64) -> bool
    ensures { Decides result (StagePlain stage (quad_number combined) n) }
{
    if stage == FLAG {
        if n != 0 {
            return false;
        }
        return same_hash(combined, regions::Quad::ZERO);
    }
    if stage == DEAD {
        return false;
    }
    if stage > ENQUEUED {
        return false;
    }
    if n == 0 {
        return false;
    }
    n <= MAX_WTXIDS as u64
}

// Whether there are zeros behind m wtxids and n parents.
fn padded(p: &[u8], m: usize, n: usize) -> bool
    requires { (8 * place_size ≤ length p.now) × (m ≤ list_most) × (n ≤ list_most) }
    ensures { Decides result (Padded (words p.now) m n) }
{
    if !words::is_zero(p, WTXIDS + m * 4, PARENTS) {
        return false;
    }
    if !words::is_zero(p, PARENTS + n * 4, SPARE) {
        return false;
    }
    words::is_zero(p, SPARE, PLACE)
}

// Whether the words of one place write it out, and it is fit. The rows of its key are guessed to begin at the i-th.
// (A slice of just a place's bytes: to make an array of a part of the region is a test of its length, with a case that never is.)
#[tactic(auto, using(crate::proofs::PlaceTests::refusals))]
fn place_fits(p: &[u8], rows: Records<Row>, slots: &mut [u16; SLOTS], mark: u16, i: usize) -> bool
    requires { length p.now ≡ 8 * place_size }
    ensures { RowsSound (recs row_size read_row rows.entry.count (words rows.entry.bytes.now))
        → Decides result (PlaceSound (recs row_size read_row rows.entry.count (words rows.entry.bytes.now)) (words p.now)) }
{
    let stage = words::get(p, STAGE);
    let combined = regions::read_quad(p, COMBINED);
    let wtxids = words::get(p, WTXID_COUNT);
    if !stage_fits(stage, combined, wtxids) {
        return false;
    }
    let parents = words::get(p, PARENT_COUNT);
    if parents > MAX_PARENTS as u64 {
        return false;
    }
    if !padded(p, wtxids as usize, parents as usize) {
        return false;
    }
    if !distinct(p, PARENTS, parents as usize, slots, mark) {
        return false;
    }
    is_owned(rows, regions::read_quad(p, 0), i)
}

// Whether the hash of the i-th place is above that of the place before it. (No order of a type: a place stays bytes, and the order of the
// hashes is the derived one.)
#[tactic(auto, using(crate::proofs::PlaceWalk::follows))]
fn place_follows(s: &[u8], i: usize) -> bool
    requires { 8 * (place_size * (i + 1)) ≤ length s.now }
    ensures { Decides result (PlaceFollows (words s.now) i) }
{
    if i == 0 {
        return true;
    }
    let x = regions::read_quad(s, (i - 1) * PLACE);
    let y = regions::read_quad(s, i * PLACE);
    regions::quad_less(x, y)
}

// Whether the first q places write themselves out, are fit, and ascend by hash. (A loop: each turn changes the slots, and where the next walk
// among the rows begins.)
pub fn places_fit(s: &[u8], q: usize, rows: Records<Row>) -> bool
    requires { 8 * (place_size * q) ≤ length s.now }
    ensures { RowsSound (recs row_size read_row rows.entry.count (words rows.entry.bytes.now))
        → Decides result (PlacesSound (recs row_size read_row rows.entry.count (words rows.entry.bytes.now)) q (words s.now)) }
{
    let mut slots = [0; SLOTS];
    let mut at = 0;
    for i in 0..q {
        let a = i * PLACE;
        let x = a * 8;
        let y = (a + PLACE) * 8;
        at = walk_to(rows, regions::read_quad(s, a), at);
        if !place_fits(&s[x..y], rows, &mut slots, (i % 0xffff + 1) as u16, at) {
            return false;
        }
        if !place_follows(s, i) {
            return false;
        }
    }
    true
}

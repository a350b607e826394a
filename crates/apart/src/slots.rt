// The places that are set apart, by number: the first in an array, the others from the byte m of the store on. Which parents of a place were
// kept is noted in it, in two words that are zero at rest. The store, m and the first place travel together and are no struct: it would hold two
// `&mut` slices, one of which is lent in part (`s[..m]`) between these calls, and each contract would need a clause that both references stay.
// Each function asks whether i is 0: one that gave the region and the index would lend either slice, and say of a change which of the two stays.
ghost use Rattle.std.specs.Prelude.{◌≡◌, ◌+◌, ◌*◌, ◌≤◌, ◌<◌, length, take, drop, [], ◌∷◌};
ghost use Rattle.ident.specs.Number.{wtxid};
ghost use Rattle.ident.specs.Words.{hash_num, key_num};
ghost use Rattle.words.specs.Words.{words, splice};
ghost use Rattle.places.specs.Places.{place_size};
ghost use Rattle.regions.specs.Rows.{quad_number};
ghost use Rattle.apart.specs.Apart.{slot_bytes, kept_at, with_notes, dying, Room, Loaded, HeadIn, SoughtIn, Altered, NoteAt, NoteIn, Forgotten, SpotIn};

use crate::SLOT;
use places::{DEAD, PLACE, SPARE};

// A place that is not dead: its number, the word of its stage (any bytes may have one that names no stage), and how many parents it has.
#[derive(Clone, Copy)]
pub struct Spot {
    pub at: usize,
    pub stage: u64,
    pub parents: usize,
}

// Which parents of a place were kept: those of the first half and the others, the first the least bit.
// (Two numbers, no u128: a place has two words for them.)
#[derive(Clone, Copy, PartialEq, Eq)]
pub struct Note {
    pub low: u64,
    pub high: u64,
}

impl Note {
    // None was kept.
    pub const NONE: Note = Note { low: 0, high: 0 };
}

// Copies the i-th place of a region.
fn copy_out(region: &[u8], i: usize, slot: &mut [u8; SLOT])
    requires { slot_bytes * (i + 1) ≤ length region.now }
    ensures { words slot.new ≡ take place_size (drop (place_size * i) (words region.now)) }
{
    let x = i * SLOT;
    let y = x + SLOT;
    slot.copy_from_slice(&region[x..y]);
}

// Copies the i-th place.
pub fn load(s: &[u8], m: usize, first: &[u8; SLOT], i: usize, slot: &mut [u8; SLOT])
    requires { Room s.now first.now m (i + 1) }
    ensures { Loaded s.now first.now m i slot.new }
{
    if i == 0 {
        slot.copy_from_slice(first);
    } else {
        copy_out(&s[m..], i - 1, slot);
    }
}

// The head of the i-th place.
pub fn head_at(s: &[u8], m: usize, first: &[u8; SLOT], i: usize) -> places::Head
    requires { Room s.now first.now m (i + 1) }
    ensures { HeadIn s.now first.now m i result }
{
    if i == 0 {
        return places::read_head(first, 0);
    }
    places::read_head(&s[m..], i - 1)
}

// The i-th place dies.
pub fn kill(s: &mut [u8], m: usize, first: &mut [u8; SLOT], i: usize)
    requires { Room s.old first.old m (i + 1) }
    ensures { Altered s.old s.new first.old first.new m i dying }
{
    if i == 0 {
        places::set_stage(first, 0, DEAD);
    } else {
        places::set_stage(&mut s[m..], i - 1, DEAD);
    }
}

// Stores the notes of the i-th place of a region.
fn write_note(region: &mut [u8], i: usize, x: Note)
    requires { 8 * (place_size * (i + 1)) ≤ length region.old }
    ensures { words region.new ≡ splice (words region.old) (place_size * i + kept_at) (x.low ∷ x.high ∷ []) }
{
    let a = i * PLACE + SPARE;
    words::put(region, a, x.low);
    words::put(region, a + 1, x.high);
}

// Notes x of the i-th place.
pub fn set_note(s: &mut [u8], m: usize, first: &mut [u8; SLOT], i: usize, x: Note)
    requires { Room s.old first.old m (i + 1) }
    ensures { Altered s.old s.new first.old first.new m i (with_notes x.low x.high) }
{
    if i == 0 {
        write_note(first, 0, x);
    } else {
        write_note(&mut s[m..], i - 1, x);
    }
}

// The notes of the i-th place of a region.
fn read_note(region: &[u8], i: usize) -> Note
    requires { 8 * (place_size * (i + 1)) ≤ length region.now }
    ensures { NoteAt (words region.now) i result }
{
    let a = i * PLACE + SPARE;
    Note {
        low: words::get(region, a),
        high: words::get(region, a + 1),
    }
}

// What is noted of the i-th place.
pub fn note_at(s: &[u8], m: usize, first: &[u8; SLOT], i: usize) -> Note
    requires { Room s.now first.now m (i + 1) }
    ensures { NoteIn s.now first.now m i result }
{
    if i == 0 {
        return read_note(first, 0);
    }
    read_note(&s[m..], i - 1)
}

// The notes of the first n places are cleared.
pub fn forget(s: &mut [u8], m: usize, first: &mut [u8; SLOT], n: usize)
    requires { Room s.old first.old m n }
    ensures { Forgotten s.old s.new first.old first.new m n }
{
    for i in 0..n {
        set_note(s, m, first, i, Note::NONE);
    }
}

// The first of n places whose hash is at least h, or n.
fn seek(s: &[u8], m: usize, first: &[u8; SLOT], n: usize, h: regions::Quad) -> usize
    requires { Room s.now first.now m n }
    ensures { SoughtIn s.now first.now m n (quad_number h) result }
{
    if n == 0 {
        return 0;
    }
    if !regions::quad_less(places::read_head(first, 0).hash, h) {
        return 0;
    }
    places::seek_place(&s[m..], n - 1, h) + 1
}

// The place of the Wtxid key with hash h, if it has one that is not dead.
fn find_hash(s: &[u8], m: usize, first: &[u8; SLOT], n: usize, h: ident::Hash) -> Option<Spot>
    requires { Room s.now first.now m n }
    ensures { SpotIn s.now first.now m n (wtxid (hash_num h)) result }
{
    let q = regions::Quad::from(h);
    let i = seek(s, m, first, n, q);
    if n <= i {
        return None;
    }
    let p = head_at(s, m, first, i);
    if regions::quad_less(q, p.hash) || p.stage == DEAD {
        return None;
    }
    Some(Spot {
        at: i,
        stage: p.stage,
        parents: p.parents as usize,
    })
}

// The place of the key k, if it has one that is not dead.
pub fn find(s: &[u8], m: usize, first: &[u8; SLOT], n: usize, k: ident::Key) -> Option<Spot>
    requires { Room s.now first.now m n }
    ensures { SpotIn s.now first.now m n (key_num k) result }
{
    match k.kind {
        ident::Kind::Txid => None,
        ident::Kind::Wtxid => find_hash(s, m, first, n, k.hash),
    }
}

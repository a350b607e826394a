// Package places in a region of the lent store (document 01, "What a state holds": flag, package and parents of a request).
//
// A place has 824 words: hash 4, combined hash 4, stage (1 flag, 2 Awaiting, 3 Enqueued), wtxid count, parent count, 100 wtxids and
// 100 parents of 4 words, and 13 words that are zero at rest. Places stand in the order of their hashes. As for the records of
// `regions`, contracts say what happens to a region that holds a list of places, and a `requires` asks for room only.
#![tactic(auto)]

ghost use Rattle.std.specs.Prelude.{◌≡◌, [], ◌∷◌, ◌+◌, ◌*◌, ◌≤◌, ◌<◌, length, drop, ltb};
ghost use Rattle.words.specs.Words.{words, recs};
ghost use Rattle.regions.specs.Regions.{Inserted, Changed};
ghost use Rattle.regions.specs.Order.{Sought};
ghost use Rattle.regions.specs.Rows.{quad_words, quad_number, read_quad};
ghost use Rattle.places.specs.Places.{list_most, place_size, combined_at, stage_at, wtxids_at, parents_at, place_words, place_key};
ghost use Rattle.places.specs.Places.{Place, blank, with_stage, with_combined, with_wtxids, with_parents, HeadAt, HashAt, Pushed};
ghost use Rattle.places.specs.Kinds.{place_kind};

pub mod clearing;

// Words of a place, and where in it the parts lie.
pub const PLACE: usize = 824;

pub const COMBINED: usize = 4;

pub const STAGE: usize = 8;

pub const WTXID_COUNT: usize = 9;

pub const PARENT_COUNT: usize = 10;

pub const WTXIDS: usize = 11;

pub const PARENTS: usize = 411;

// Words behind its lists, zero at rest.
pub const SPARE: usize = 811;

// What the stage of a place can be: a place that is to go, which stands in no sound store; the flag; an Awaiting and an Enqueued package.
pub const DEAD: u64 = 0;

pub const FLAG: u64 = 1;

pub const AWAITING: u64 = 2;

pub const ENQUEUED: u64 = 3;

// What a place has beside its lists. The counts are those of the lists; the stage is a word, as any bytes may have one that names no stage.
#[derive(Clone, Copy)]
pub struct Head {
    pub hash: regions::Quad,
    pub combined: regions::Quad,
    pub stage: u64,
    pub wtxids: u64,
    pub parents: u64,
}

// What a region of places holds, as a kind of record. The code has no value of a whole place: its parts are read and changed one by one.
pub struct Place;

impl regions::Record for Place {
    const WORDS: usize = PLACE;

    ghost WORDS = { place_size };

    ghost Value = { Place };

    ghost to_words = { place_words };

    ghost laws = { place_kind };
}

// ---- whole places

// The head of the i-th place.
pub fn read_head(s: &[u8], i: usize) -> Head
    requires { 8 * (place_size * (i + 1)) ≤ length s.now }
    ensures { HeadAt (words s.now) i result }
{
    let a = i * PLACE;
    let hash = regions::read_quad(s, a);
    let combined = regions::read_quad(s, a + COMBINED);
    let stage = words::get(s, a + STAGE);
    let wtxids = words::get(s, a + WTXID_COUNT);
    let parents = words::get(s, a + PARENT_COUNT);
    Head {
        hash,
        combined,
        stage,
        wtxids,
        parents,
    }
}

// Puts a place for the hash h in as the i-th of n, with no package and no parents. (The stage is any word: a type of stages would ask more.)
pub fn insert_place(s: &mut [u8], n: usize, i: usize, h: regions::Quad, stage: u64)
    requires { (i ≤ n) × (8 * (place_size * (n + 1)) ≤ length s.old) }
    ensures { Inserted place_size place_words (words s.old) (words s.new) n i (blank (quad_number h) stage) }
{
    let a = i * PLACE;
    regions::move_up(s, a, n * PLACE, PLACE);
    words::clear(s, a, PLACE);
    regions::write_quad(s, a, h);
    words::put(s, a + STAGE, stage);
}

// The first of n places whose hash is at least h, or n.
pub fn seek_place(s: &[u8], n: usize, h: regions::Quad) -> usize
    requires { 8 * (place_size * n) ≤ length s.now }
    ensures { Sought (recs place_size place_key n (words s.now)) n (quad_number h) result }
{
    regions::lower_bound(
        n,
        |i| -> bool
            requires { 8 * (place_size * (i + 1)) ≤ length s.now }
            ensures { result ≡ ltb (quad_number (read_quad (drop (i * place_size) (words s.entry.now)))) (quad_number h) }
        { regions::quad_less(regions::read_quad(s, i * PLACE), h) },
    )
}

// ---- parts of a place

// (Wtxids and parents have a function each, to read and to put in: one for both would need a trait with two constants and two ghost members, longer than the pairs.)

// Stores the i-th place's stage, any word.
pub fn set_stage(s: &mut [u8], i: usize, v: u64)
    requires { 8 * (place_size * (i + 1)) ≤ length s.old }
    ensures { Changed place_size place_words (words s.old) (words s.new) i stage_at (v ∷ []) (with_stage v) }
{
    words::put(s, i * PLACE + STAGE, v);
}

// Stores the i-th place's combined hash.
pub fn set_combined(s: &mut [u8], i: usize, h: regions::Quad)
    requires { 8 * (place_size * (i + 1)) ≤ length s.old }
    ensures { Changed place_size place_words (words s.old) (words s.new) i combined_at (quad_words h) (with_combined (quad_number h)) }
{
    regions::write_quad(s, i * PLACE + COMBINED, h);
}

// The j-th wtxid of the i-th place.
pub fn read_wtxid(s: &[u8], i: usize, j: usize) -> regions::Quad
    requires { (j < list_most) × (8 * (place_size * (i + 1)) ≤ length s.now) }
    ensures { HashAt (words s.now) i wtxids_at (λ p. p.wtxids) j result }
{
    regions::read_quad(s, i * PLACE + (WTXIDS + j * 4))
}

// The j-th parent of the i-th place.
pub fn read_parent(s: &[u8], i: usize, j: usize) -> regions::Quad
    requires { (j < list_most) × (8 * (place_size * (i + 1)) ≤ length s.now) }
    ensures { HashAt (words s.now) i parents_at (λ p. p.parents) j result }
{
    regions::read_quad(s, i * PLACE + (PARENTS + j * 4))
}

// Puts h behind the n wtxids of the i-th place.
pub fn push_wtxid(s: &mut [u8], i: usize, n: usize, h: regions::Quad)
    requires { (n < list_most) × (8 * (place_size * (i + 1)) ≤ length s.old) }
    ensures { Pushed (words s.old) (words s.new) i (λ p. p.wtxids) with_wtxids n (quad_number h) }
{
    let a = i * PLACE;
    regions::write_quad(s, a + (WTXIDS + n * 4), h);
    words::put(s, a + WTXID_COUNT, (n + 1) as u64);
}

// Puts h behind the n parents of the i-th place.
pub fn push_parent(s: &mut [u8], i: usize, n: usize, h: regions::Quad)
    requires { (n < list_most) × (8 * (place_size * (i + 1)) ≤ length s.old) }
    ensures { Pushed (words s.old) (words s.new) i (λ p. p.parents) with_parents n (quad_number h) }
{
    let a = i * PLACE;
    regions::write_quad(s, a + (PARENTS + n * 4), h);
    words::put(s, a + PARENT_COUNT, (n + 1) as u64);
}

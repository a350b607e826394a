// One request with its flag, package and parents, in the lent bytes (document 01, modules 2 and 3): read whole, and changed.
//
// As in `requests`, a contract speaks of every sound state that the bytes write. A request that has the flag or a package has a place;
// it is found by the hash of the request's Wtxid key.
#![tactic(auto)]

ghost use Rattle.std.specs.Prelude.{◌≡◌, ◌≤◌, ◌<◌, false, length, get_or, Some};
ghost use Rattle.std.proofs.Math.Option.{some};
ghost use Rattle.ident.specs.Number.{wtxid};
ghost use Rattle.ident.specs.Words.{hash_num, key_num};
ghost use Rattle.lent_lists.specs.Lists.{hashes_in};
ghost use Rattle.machine.specs.State.{Package, owner_is};
ghost use Rattle.machine.specs.Table.{at, change};
ghost use Rattle.machine.specs.Leave.{alive};
ghost use Rattle.machine.specs.Package.{packaged};
ghost use Rattle.places.specs.Places.{list_most};
ghost use Rattle.store.specs.Shown.{rows_in, places_in, held_places_in, Kept, Shown};
ghost use Rattle.requests.specs.Changes.{Tells, Makes};
ghost use Rattle.package_stages.specs.Changes.{
  stage_word,
  stage_of,
  wtxids_of,
  combined_of,
  OwnerAmong,
  RequestAt,
  Sought,
  ReadAt,
  OwnedPlain,
  flagged,
  TakesParent,
  with_parent,
  FlagOnly,
  begun,
  closed,
};

use machine::limits::MAX_PARENTS;
use places::{AWAITING, ENQUEUED, FLAG};
use store::rows::Window;

pub mod dead;
pub mod flat;

// ---- where the place of a hash stands

// Where the place of the Wtxid key with hash h stands, or would stand if the request had one.
pub fn seek(s: &[u8], h: ident::Hash) -> Result<usize, usize>
    requires { Kept s.now }
    ensures { Sought s.now (hash_num h) result }
{
    let q = regions::Quad::from(h);
    let at = flat::seek_place(s, q);
    if at < store::head::held_places(s) {
        let p = store::package_places::place_at(s, at);
        let x = p.hash;
        if !regions::quad_less(q, x) {
            return Ok(at);
        }
    }
    Err(at)
}

// ---- the request at a key

// How far a request with a flag or a package has come.
#[derive(Clone, Copy, PartialEq, Eq, Debug)]
pub enum Stage {
    Flagged,
    Awaiting,
    Enqueued,
}

impl From<Stage> for u64 {
    ghost from_gives = { λ s n. n ≡ stage_word (Some s) };

    // The word of a place that stands for the stage.
    fn from(stage: Stage) -> u64 {
        match stage {
            Stage::Flagged => FLAG,
            Stage::Awaiting => AWAITING,
            Stage::Enqueued => ENQUEUED,
        }
    }
}

// The stage that the word of a place stands for; 0 is none. (No TryFrom: the word 0, no stage, is no error.)
fn stage_in(word: u64) -> Option<Stage>
    ensures { word ≤ 3 → stage_word result ≡ word }
{
    match word {
        FLAG => Some(Stage::Flagged),
        AWAITING => Some(Stage::Awaiting),
        ENQUEUED => Some(Stage::Enqueued),
        _ => None,
    }
}

// (The connection as a number, which is what the machine compares: a `Connection` is made where a call asks for one.)
#[derive(Clone, Copy)]
pub struct Owner {
    pub connection: u64,
    pub deadline: u64,
}

// (The mark is the request's own: no other field stands or falls with it.)
#[derive(Clone, Copy)]
pub struct Request {
    pub rows: Window,
    pub owner: Option<Owner>,
    pub stage: Option<Stage>,
    pub mark: bool,
}

impl Request {
    ghost use Rattle.package_stages.specs.Changes.{owner_as};

    pub fn is_owned_by(&self, n: u64) -> bool
        ensures { result ≡ owner_is n (owner_as self.now.owner) }
    {
        self.owner.is_some_and(|o| o.connection == n)
    }

    // Whether it has an owner, whose deadline is still to come.
    pub fn is_alive(&self, clock: u64) -> bool
        ensures { result ≡ alive clock (owner_as self.now.owner) }
    {
        self.owner.is_some_and(|o| clock < o.deadline)
    }
}

// Whom the rows of a window name as owner.
pub fn owner_in(s: &[u8], w: Window) -> Option<Owner>
    requires { Shown s.now × (w.to ≤ rows_in s.now) }
    ensures { OwnerAmong s.now w.from w.to result }
{
    let i = (w.from..w.to).find(|&i| store::rows::row_at(s, i).owns())?;
    let r = store::rows::row_at(s, i);
    Some(Owner {
        connection: r.conn,
        deadline: r.deadline,
    })
}

fn stage_at(s: &[u8], k: ident::Key) -> Option<Stage>
    requires { Kept s.now }
    ensures { Tells s.now (λ t. stage_word result ≡ stage_of (at (key_num k) t).info (at (key_num k) t).«package») }
{
    match k.kind {
        ident::Kind::Txid => None,
        ident::Kind::Wtxid => {
            let i = seek(s, k.hash).ok()?;
            stage_in(store::package_places::place_at(s, i).stage)
        }
    }
}

pub fn request_at(s: &[u8], k: ident::Key) -> Request
    requires { Kept s.now }
    ensures { RequestAt s.now (key_num k) result }
{
    let key = regions::Key::from(k);
    let rows = requests::window_of(s, key);
    let owner = owner_in(s, rows);
    let stage = stage_at(s, k);
    let mark = requests::mark_in(s, rows.from, rows.to);
    Request {
        rows,
        owner,
        stage,
        mark,
    }
}

// ---- what the i-th place holds (parents and wtxids in pairs of functions, for the reason that stands in flat.rt)

// How many parents its request has.
pub fn parents(s: &[u8], i: usize) -> usize
    requires { Kept s.now × (i < held_places_in s.now) }
    ensures { (result ≤ list_most) × ReadAt s.now i (λ q. result ≡ length q.parents) }
{
    let p = store::package_places::place_at(s, i);
    p.parents as usize
}

// How many wtxids its package has; 0 where there is none.
pub fn wtxids(s: &[u8], i: usize) -> usize
    requires { Kept s.now × (i < held_places_in s.now) }
    ensures { (result ≤ list_most) × ReadAt s.now i (λ q. result ≡ length (wtxids_of q.«package»)) }
{
    let p = store::package_places::place_at(s, i);
    p.wtxids as usize
}

pub fn combined_at(s: &[u8], i: usize) -> ident::Hash
    requires { Kept s.now × (i < held_places_in s.now) }
    ensures { ReadAt s.now i (λ q. hash_num result ≡ combined_of q.«package») }
{
    let p = store::package_places::place_at(s, i);
    let c = p.combined;
    ident::Hash::from(c)
}

pub fn parent_at(s: &[u8], i: usize, j: usize) -> ident::Hash
    requires { Kept s.now × (i < held_places_in s.now) × (j < list_most) }
    ensures { ReadAt s.now i (λ q. j < length q.parents → hash_num result ≡ get_or q.parents j 0) }
{
    let q = flat::read_parent(s, i, j);
    ident::Hash::from(q)
}

pub fn wtxid_at(s: &[u8], i: usize, j: usize) -> ident::Hash
    requires { Kept s.now × (i < held_places_in s.now) × (j < list_most) }
    ensures { ReadAt s.now i (λ q. j < length (wtxids_of q.«package») → hash_num result ≡ get_or (wtxids_of q.«package») j 0) }
{
    let q = flat::read_wtxid(s, i, j);
    ident::Hash::from(q)
}

// ---- flag, package and parents changed, at the Wtxid key with hash h

// The request has an owner, and neither flag nor package: it gets the flag, with no parents yet.
pub fn open_info(s: &mut [u8], h: ident::Hash)
    requires { Kept s.old × (held_places_in s.old < places_in s.old) }
    ensures { Makes s.old s.new (λ t. OwnedPlain (at (wtxid (hash_num h)) t)) (change (wtxid (hash_num h)) flagged) }
{
    let (Ok(i) | Err(i)) = seek(s, h);
    let q = regions::Quad::from(h);
    store::package_places::open_place(s, i, q, FLAG);
}

// Puts a hash behind the parents of the request, which are fewer than 100.
pub fn add_parent(s: &mut [u8], h: ident::Hash, parent: ident::Hash)
    requires { Kept s.old }
    ensures { Makes s.old s.new (λ t. TakesParent (at (wtxid (hash_num h)) t)) (change (wtxid (hash_num h)) (with_parent (hash_num parent))) }
{
    if let Ok(i) = seek(s, h) {
        let n = parents(s, i);
        let q = regions::Quad::from(parent);
        if n < MAX_PARENTS {
            flat::push_parent(s, i, n, q);
        }
    }
}

// The flag becomes a package, Awaiting; `list` has its wtxids, 32 bytes each. The parents stay.
pub fn claim(s: &mut [u8], h: ident::Hash, combined: ident::Hash, list: &[u8])
    requires { Kept s.old × (length (hashes_in list.now) ≤ list_most) }
    ensures { Makes s.old s.new (λ t. FlagOnly (at (wtxid (hash_num h)) t))
        (change (wtxid (hash_num h)) (packaged (record { combined = hash_num combined; wtxids = hashes_in list.now; enqueued = false }))) }
{
    if let Ok(i) = seek(s, h) {
        let x = store::package_places::place_at(s, i);
        let q = regions::Quad::from(combined);
        if x.stage == FLAG {
            flat::push_wtxids(s, i, list);
            flat::set_combined(s, i, q);
            store::package_places::set_stage(s, i, AWAITING);
        }
    }
}

// The package is Enqueued from now on.
pub fn enqueue(s: &mut [u8], h: ident::Hash)
    requires { Kept s.old }
    ensures { (p : Package) → Makes s.old s.new (λ t. (at (wtxid (hash_num h)) t).«package» ≡ some p) (change (wtxid (hash_num h)) (packaged (begun p))) }
{
    if let Ok(i) = seek(s, h) {
        store::package_places::set_stage(s, i, ENQUEUED);
    }
}

// Flag, package and parents go; the owner stays.
pub fn close(s: &mut [u8], h: ident::Hash)
    requires { Kept s.old }
    ensures { Makes s.old s.new (λ t. Unit {0}) (change (wtxid (hash_num h)) closed) }
{
    if let Ok(i) = seek(s, h) {
        store::package_places::close_place(s, i);
    }
}

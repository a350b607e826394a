// Whether the request of a row has a package. Rows and places are both in the order of hashes: what is kept of the place that the pass has come to tells of
// most rows, and a place is read once.
ghost use Rattle.std.specs.Prelude.{◌≡◌, ◌-◌, ◌≤◌, ◌<◌, true, List, get_or};
ghost use Rattle.regions.specs.declared.Conn.{Conn};
ghost use Rattle.regions.specs.declared.Row.{Row};
ghost use Rattle.regions.specs.Order.{Sorted, Bound};
ghost use Rattle.regions.specs.Rows.{quad_number};
ghost use Rattle.ident.specs.Number.{top};
ghost use Rattle.places.specs.Places.{Place};
ghost use Rattle.machine.specs.State.{State};
ghost use Rattle.machine.specs.Sound.{Sound};
ghost use Rattle.store.specs.Flat.{Flat, places_of};
ghost use Rattle.store.specs.FlatSound.{hash_at};
ghost use Rattle.store.specs.Image.{Shows};
ghost use Rattle.store.specs.Shown.{held_places_in, Shown};
ghost use Rattle.package_stages.specs.Records.{place_hashes};
ghost use Rattle.tearing.specs.Torn.{Ebbs};
ghost use Rattle.tearing.specs.Places.{Stands, Leads, PackageAt, Tells};

use places::AWAITING;
use regions::Quad;

// The place that a pass has come to, or behind the last: its hash and that of the one before, and whether it is a package's. (Of a place that is not there the
// fields say nothing.)
#[derive(Clone, Copy)]
pub struct Reached {
    pub at: usize,
    pub before: Quad,
    pub hash: Quad,
    pub packaged: bool,
}

// Whether the request of a row has a package, and the place that the pass has come to with that row.
#[derive(Clone, Copy)]
pub struct Found {
    pub packaged: bool,
    pub reached: Reached,
}

// The hash of the place before the i-th, if there is one.
fn hash_before(s: &[u8], i: usize) -> Quad
    requires { Shown s.now × (i ≤ held_places_in s.now) }
    ensures { (f : Flat) (d : Place) → Shows s.now f → 0 < i → quad_number result ≡ (get_or f.places (i - 1) d).hash }
{
    if i == 0 {
        return Quad::ZERO;
    }
    let p = store::package_places::place_at(s, i - 1);
    p.hash
}

// The i-th place, or behind the last. (By the word: a package's stages are those from AWAITING on, as for `count_packages`.)
pub fn reach(s: &[u8], i: usize) -> Reached
    requires { Shown s.now × (i ≤ held_places_in s.now) }
    ensures at { result.at ≡ i }
    ensures stands { (f : Flat) → Shows s.now f → Stands f.places result }
{
    let before = hash_before(s, i);
    if i == store::head::held_places(s) {
        return Reached {
            at: i,
            before,
            hash: Quad::ZERO,
            packaged: false,
        };
    }
    let p = store::package_places::place_at(s, i);
    Reached {
        at: i,
        before,
        hash: p.hash,
        packaged: AWAITING <= p.stage,
    }
}

// Whether the place of the hash q is the one that is known, or would stand before it.
fn leads_to(s: &[u8], q: Quad, known: Reached) -> bool
    requires { Shown s.now }
    ensures { result ≡ true → (f : Flat) → Shows s.now f → Stands f.places known → Sorted (place_hashes f.places) → Bound (place_hashes f.places) (quad_number q) known.at }
{
    let above = known.at == 0 || regions::quad_less(known.before, q);
    above && (known.at == store::head::held_places(s) || !regions::quad_less(known.hash, q))
}

// The place of the hash q: the one that is known, the next, or by a search. (No `regions::near`, which tries one guess: rows of one hash may lead to either place.)
fn come_to(s: &[u8], q: Quad, known: Reached) -> Reached
    requires { Shown s.now }
    ensures { (f : Flat) → Shows s.now f → Stands f.places known → Sorted (place_hashes f.places) → Leads f.places (quad_number q) result }
{
    if leads_to(s, q, known) {
        return known;
    }
    if known.at < store::head::held_places(s) {
        let next = reach(s, known.at + 1);
        if leads_to(s, q, next) {
            return next;
        }
    }
    let i = package_stages::flat::seek_place(s, q);
    reach(s, i)
}

// Whether the place that was come to is a package's, and of the hash q.
fn is_package(s: &[u8], q: Quad, reached: Reached) -> bool
    requires { Shown s.now }
    ensures { PackageAt s.now (quad_number q) reached result }
{
    if reached.at < store::head::held_places(s) {
        let h = reached.hash;
        if regions::quad_less(q, h) {
            return false;
        }
        return reached.packaged;
    }
    false
}

// Whether the request of the row r has a package. (Rows of Txid keys have none, and lead nowhere.)
pub fn find(s: &[u8], r: regions::Row, known: Reached) -> Found
    requires { Shown s.now }
    ensures { (st : State) (xs : List Row) (cs : List Conn) → Sound st → Ebbs s.now st xs cs → hash_at r < top → Stands (places_of st.table) known → Tells st r result }
{
    if r.kind() == ident::Kind::Txid {
        return Found {
            packaged: false,
            reached: known,
        };
    }
    let q = r.hash;
    let reached = come_to(s, q, known);
    Found {
        packaged: is_package(s, q, reached),
        reached,
    }
}

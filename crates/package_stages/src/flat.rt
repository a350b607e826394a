// The package places of a store as records, beyond store::package_places: searched, their lists read and lengthened. (Wtxids and parents have a function
// each, as in `places`: one for both would need a trait over the two lists, longer than the pairs.)
ghost use Rattle.std.specs.Prelude.{◌+◌, ◌≤◌, ◌<◌, length, get_or, set};
ghost use Rattle.lent_lists.specs.Lists.{hashes_in};
ghost use Rattle.regions.specs.Rows.{quad_number};
ghost use Rattle.places.specs.Places.{Place, list_most, with_combined, with_wtxids, with_parents};
ghost use Rattle.store.specs.Shown.{held_places_in, Shown, with_places, Turns, Seek};
ghost use Rattle.package_stages.specs.Records.{place_hashes, HashIn, PushedIn, NoneListed, ListedIn};

use store::layout::places_part;

// The first place whose hash is at least h, or how many places there are.
pub fn seek_place(s: &[u8], h: regions::Quad) -> usize
    requires { Shown s.now }
    ensures { Seek s.now (λ f. place_hashes f.places) (held_places_in s.now) (quad_number h) result }
{
    let n = store::head::held_places(s);
    places::seek_place(&s[places_part(s)], n, h)
}

// The j-th wtxid of the i-th place.
pub fn read_wtxid(s: &[u8], i: usize, j: usize) -> regions::Quad
    requires { Shown s.now × (i < held_places_in s.now) × (j < list_most) }
    ensures { HashIn s.now i (λ p. p.wtxids) j result }
{
    places::read_wtxid(&s[places_part(s)], i, j)
}

// The j-th parent of the i-th place.
pub fn read_parent(s: &[u8], i: usize, j: usize) -> regions::Quad
    requires { Shown s.now × (i < held_places_in s.now) × (j < list_most) }
    ensures { HashIn s.now i (λ p. p.parents) j result }
{
    places::read_parent(&s[places_part(s)], i, j)
}

// Stores the i-th place's combined hash.
pub fn set_combined(s: &mut [u8], i: usize, h: regions::Quad)
    requires { Shown s.old × (i < held_places_in s.old) }
    ensures { (d : Place) → Turns s.old s.new (λ f. with_places (set f.places i (with_combined (quad_number h) (get_or f.places i d))) f) }
{
    let part = places_part(s);
    places::set_combined(&mut s[part], i, h);
}

// Puts h behind the n wtxids of the i-th place.
pub fn push_wtxid(s: &mut [u8], i: usize, n: usize, h: regions::Quad)
    requires { Shown s.old × (i < held_places_in s.old) × (n < list_most) }
    ensures { PushedIn s.old s.new i (λ p. p.wtxids) with_wtxids n (quad_number h) }
{
    let part = places_part(s);
    places::push_wtxid(&mut s[part], i, n, h);
}

// Makes the hashes of a list of 32 bytes each the wtxids of the i-th place, which has none.
pub fn push_wtxids(s: &mut [u8], i: usize, list: &[u8])
    requires { NoneListed s.old i (λ p. p.wtxids) × (length (hashes_in list.now) ≤ list_most) }
    ensures { ListedIn s.old s.new i (λ p. p.wtxids) with_wtxids (hashes_in list.now) }
{
    let n = lent_lists::hashes(list);
    for j in 0..n {
        let h = lent_lists::hash_in(list, j);
        let q = regions::Quad::from(h);
        push_wtxid(s, i, j, q);
    }
}

// Puts h behind the n parents of the i-th place.
pub fn push_parent(s: &mut [u8], i: usize, n: usize, h: regions::Quad)
    requires { Shown s.old × (i < held_places_in s.old) × (n < list_most) }
    ensures { PushedIn s.old s.new i (λ p. p.parents) with_parents n (quad_number h) }
{
    let part = places_part(s);
    places::push_parent(&mut s[part], i, n, h);
}

// Makes the hashes of a list of 32 bytes each the parents of the i-th place, which has none.
pub fn push_parents(s: &mut [u8], i: usize, list: &[u8])
    requires { NoneListed s.old i (λ p. p.parents) × (length (hashes_in list.now) ≤ list_most) }
    ensures { ListedIn s.old s.new i (λ p. p.parents) with_parents (hashes_in list.now) }
{
    let n = lent_lists::hashes(list);
    for j in 0..n {
        let h = lent_lists::hash_in(list, j);
        let q = regions::Quad::from(h);
        push_parent(s, i, j, q);
    }
}

// Places taken out of a region in one pass. Of those that go only the words are cleared that can be other than zero, its head and the hashes of its lists:
// a place has 6.6 KB, most of them zero, and thousands go at once.
ghost use Rattle.std.specs.Prelude.{◌≡◌, ℕ, ◌+◌, ◌*◌, ◌≤◌, Bool, List, length, take, drop, min, replicate};
ghost use Rattle.words.specs.Words.{words, splice};
ghost use Rattle.regions.specs.Regions.{Holds};
ghost use Rattle.regions.specs.Staying.{Retained};
ghost use Rattle.places.specs.Places.{list_most, place_size, place_words, Place};

use crate::{PARENT_COUNT, PARENTS, PLACE, WTXID_COUNT, WTXIDS};

// Hashes of a list at most.
const LIST: usize = 100;

// How many words the hashes of a list take whose count is `count`.
fn taken(count: u64) -> usize
    ensures { result ≡ 4 * min count list_most }
{
    if count < LIST as u64 {
        count as usize * 4
    } else {
        LIST * 4
    }
}

// Clears the i-th place.
fn clear_place(s: &mut [u8], i: usize)
    requires { 8 * (place_size * (i + 1)) ≤ length s.old }
    ensures { (p : Place) → take place_size (drop (place_size * i) (words s.old)) ≡ place_words p → words s.new ≡ splice (words s.old) (place_size * i) (replicate place_size 0) }
{
    let a = i * PLACE;
    let wtxids = taken(words::get(s, a + WTXID_COUNT));
    let parents = taken(words::get(s, a + PARENT_COUNT));
    words::clear(s, a, WTXIDS + wtxids);
    words::clear(s, a + PARENTS, parents);
}

// Clears the places from the m-th of n on.
fn clear_from(s: &mut [u8], n: usize, m: usize)
    requires { (m ≤ n) × (8 * (place_size * n) ≤ length s.old) }
    ensures { (Q : ℕ) (ps : List Place) → length ps ≡ n → Holds place_size place_words Q ps (words s.old) → Holds place_size place_words Q (take m ps) (words s.new) }
{
    for i in m..n {
        clear_place(s, i);
    }
}

// `regions::keep::retain` of places.
pub fn retain<F: Fn(&[u8]) -> bool>(s: &mut [u8], n: usize, stays: F) -> usize
    requires room { 8 * (place_size * n) ≤ length s.old }
    requires can { (u : _) → length u.now ≡ 8 * place_size → F.pre stays u }
    ensures { Retained place_size place_words (λ q. (x : Place) (u : _) (b : Bool) → words u.now ≡ place_words x → F.post stays u b → b ≡ q x) (words s.old) (words s.new) n result }
{
    let m = regions::keep::sift::<crate::Place, F>(s, n, stays);
    clear_from(s, n, m);
    m
}

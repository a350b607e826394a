// The package places: opened, read, changed, closed. (No `parts::Part`, whose records are read and written whole: the code has no value of a whole place.)
ghost use Rattle.std.specs.Prelude.{◌≡◌, ℕ, ◌+◌, ◌≤◌, ◌<◌, length, get_or, set};
ghost use Rattle.regions.specs.Regions.{insert_at, remove_at};
ghost use Rattle.regions.specs.Rows.{quad_number};
ghost use Rattle.places.specs.Places.{Place, head_of, blank, with_stage};
ghost use Rattle.store.specs.Flat.{Flat};
ghost use Rattle.store.specs.Image.{Shows};
ghost use Rattle.store.specs.Shown.{places_in, held_places_in, Shown, with_places, Turns};

use crate::{head, layout};

// What the i-th place has beside its lists.
pub fn place_at(s: &[u8], i: usize) -> places::Head
    requires { Shown s.now × (i < held_places_in s.now) }
    ensures { (f : Flat) (d : Place) → Shows s.now f → result ≡ head_of (get_or f.places i d) }
{
    places::read_head(&s[layout::places_part(s)], i)
}

// Opens a place for the hash h as the i-th, with neither package nor parents. (The stage is any word: a type of stages would ask more.)
pub fn open_place(s: &mut [u8], i: usize, h: regions::Quad, stage: u64)
    requires { Shown s.old × (i ≤ held_places_in s.old) × (held_places_in s.old < places_in s.old) }
    ensures { Turns s.old s.new (λ f. with_places (insert_at i (blank (quad_number h) stage) f.places) f) }
{
    let n = head::held_places(s);
    let part = layout::places_part(s);
    places::insert_place(&mut s[part], n, i, h, stage);
    words::put(s, layout::HELD_PLACES, (n + 1) as u64);
}

// Closes the i-th place.
pub fn close_place(s: &mut [u8], i: usize)
    requires { Shown s.old × (i < held_places_in s.old) }
    ensures { Turns s.old s.new (λ f. with_places (remove_at i f.places) f) }
{
    let n = head::held_places(s);
    let part = layout::places_part(s);
    regions::remove::<places::Place>(&mut s[part], n, i);
    words::put(s, layout::HELD_PLACES, (n - 1) as u64);
}

// Stores the i-th place's stage, any word.
pub fn set_stage(s: &mut [u8], i: usize, v: u64)
    requires { Shown s.old × (i < held_places_in s.old) }
    ensures { (d : Place) → Turns s.old s.new (λ f. with_places (set f.places i (with_stage v (get_or f.places i d))) f) }
{
    let part = layout::places_part(s);
    places::set_stage(&mut s[part], i, v);
}

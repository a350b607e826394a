// The package places set apart: while a call works on the rows alone, the store stands without them.
//
// A store is header, rows, connections, places. `set_apart` takes the first place out into an array beside the store and says in the
// header that there is room for one place and none is held: the bytes as far as that place then write a sound state without packages,
// and the other places lie behind them. `put_back` undoes it, without the places that died meanwhile, when nothing is noted of a place any more.
#![tactic(auto)]

ghost use Rattle.std.specs.Prelude.{◌≡◌};
ghost use Rattle.store.specs.Shown.{limit_in, Kept};
ghost use Rattle.apart.specs.Apart.{bare_bytes, SetApart, Rested, PutBack};

use places::PLACE;
use store::layout;

pub mod delayed;
pub mod lapsing;
pub mod noting;
pub mod parents;
pub mod slots;

// Bytes of a place.
pub const SLOT: usize = PLACE * 8;

// The bytes of a store with as many rows, but one place.
#[tactic(auto, using(requests::proofs::Keeping::kept_shown))]
pub fn bare_bytes(s: &[u8]) -> usize
    requires { Kept s.now }
    ensures { result ≡ bare_bytes (limit_in s.now) }
{
    layout::places_part(s).start + SLOT
}

// Sets the places apart; m are the bytes without the others.
pub fn set_apart(s: &mut [u8], m: usize, first: &mut [u8; SLOT])
    requires { Kept s.old × (m ≡ bare_bytes (limit_in s.old)) }
    ensures { SetApart s.old s.new first.new m }
{
    let x = m - SLOT;
    first.copy_from_slice(&s[x..m]);
    words::clear(&mut s[x..m], 0, PLACE);
    words::put(s, layout::PLACES, 1);
    words::put(s, layout::HELD_PLACES, 0);
}

// Puts the n places back, and takes the dead ones out.
pub fn put_back(s: &mut [u8], m: usize, first: &[u8; SLOT], n: usize)
    requires { Rested s.old first.now m n }
    ensures { PutBack s.old s.new first.now m n }
{
    let q = (s.len() - m) / SLOT + 1;
    let x = m - SLOT;
    s[x..m].copy_from_slice(first);
    words::put(s, layout::PLACES, q as u64);
    words::put(s, layout::HELD_PLACES, n as u64);
    package_stages::dead::drop_dead(s);
}

// The public calls for programs in C and Rust (bindings/c/tracker.h): `bindings/build` writes the archive.
//
// A call returns a status, 0 if it was carried out and else the number of document 01's table, and hands the numbers of its reply
// out. Each contract is the one of the public call (crates/public_*), its reply said by these numbers (crates/crossing).
// The C interface wants a function of its own for each name, with C's types: kinds are numbers, flags bools, and what is handed out goes through one pointer each.
// So functions of one shape stand side by side; crates/crossing has what they share.
#![tactic(auto, using(crossing::proofs::Statuses::handing), unfolding(machine::specs::Step::carry_out, machine::specs::Step::perform))]

ghost use Rattle.words.specs.Words.{Decides};
ghost use Rattle.machine.specs.Call.{Open, On, Sum};
ghost use Rattle.store.specs.Image.{SoundStore};
ghost use Rattle.outcome.specs.Outcome.{Leaves};
ghost use Rattle.crossing.specs.Status.{numbered, figured, Stays};

use crossing::status;

pub mod arrangements;
pub mod candidates;
pub mod connections;
pub mod departures;
pub mod failures;
pub mod listings;
pub mod ownership;
pub mod package_calls;
pub mod package_claims;
pub mod payloads;
pub mod plans;
pub mod sweeps;
pub mod wrappers;

// Makes the store an empty tracker for l announcements and q package places.
#[unsafe(no_mangle)]
pub extern "C" fn tracker_open(s: &mut [u8], l: u64, q: u64) -> u64
    ensures { Leaves (Open l q) s.old s.new (numbered result 1) }
{
    status(public_requests::open(s, l, q))
}

// Whether the bytes, as far as their need, write a sound state: what a call tests first.
#[unsafe(no_mangle)]
pub extern "C" fn tracker_sound(s: &[u8]) -> bool
    ensures { Decides result (SoundStore s.now) }
{
    sound::sound(s)
}

// How many announcements are held, how many more fit of unpreferred newcomers and of preferred ones, and how full the tracker is in thousandths. Refused, it hands nothing out.
#[unsafe(no_mangle)]
pub extern "C" fn tracker_sum(
    s: &[u8],
    held: &mut u64,
    free: &mut u64,
    preferred_free: &mut u64,
    permille: &mut u64,
) -> u64
    ensures leaves { Leaves (On Sum) s.now s.now (figured result held.new free.new preferred_free.new permille.new) }
    ensures kept { Stays result held.old held.new × Stays result free.old free.new
        × Stays result preferred_free.old preferred_free.new × Stays result permille.old permille.new }
{
    let f = public_requests::sum(s);
    crossing::hand_figures(f, held, free, preferred_free, permille)
}

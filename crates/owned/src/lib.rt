// The calls of an owner of the store's bytes, for C and Rust: `bindings/build` writes the archive.
//
// Each asks for a sound store and does not test it: what the checked call (crates/exports) does behind its sound test. It leaves a sound store, so that an
// owner whose bytes nobody else writes, once opened or tested, may call on for ever. A caller that is proved shows `requires`; one in C or Rust must keep the
// bytes to itself. This archive is another than the checked one, which has no such function.
// The C interface wants a function of its own for each name, with C's types: kinds are numbers, flags bools, and what is handed out goes through one pointer each.
// So the two families are written out, and functions of one shape stand side by side; crates/crossing has what they share.
#![tactic(auto, using(crossing::proofs::Statuses::handing), unfolding(machine::specs::Step::carry_out, machine::specs::Step::perform))]

ghost use Rattle.machine.specs.Call.{On, Sum};
ghost use Rattle.store.specs.Image.{SoundStore};
ghost use Rattle.outcome.specs.Outcome.{Leaves};
ghost use Rattle.crossing.specs.Status.{figured, Stays};

pub mod arrangements;
pub mod candidates;
pub mod connections;
pub mod departures;
pub mod failures;
pub mod listings;
pub mod ownership;
pub mod package_calls;
pub mod package_claims;
pub mod plans;
pub mod sweeps;
pub mod wrappers;

// How many announcements are held, how many more fit of unpreferred newcomers and of preferred ones, and how full the tracker is in thousandths. The store is only read.
#[unsafe(no_mangle)]
pub extern "C" fn tracker_owned_sum(
    s: &[u8],
    held: &mut u64,
    free: &mut u64,
    preferred_free: &mut u64,
    permille: &mut u64,
) -> u64
    requires { SoundStore s.now }
    ensures leaves { Leaves (On Sum) s.now s.now (figured result held.new free.new preferred_free.new permille.new) }
    ensures kept { Stays result held.old held.new × Stays result free.old free.new
        × Stays result preferred_free.old preferred_free.new × Stays result permille.old permille.new }
{
    let f = public_requests::on_sound::sum(s);
    crossing::hand_figures(f, held, free, preferred_free, permille)
}

// The public calls of a plan and of a checked list: plan, over all keys or over given ones, and claim (document 01, "The request machine").
#![tactic(auto, using(crate::proofs::Unsound::unsound), unfolding(machine::specs::Call::named))]

ghost use Rattle.std.proofs.Math.Option.{none, some};
ghost use Rattle.machine.specs.Call.{On, Plan, Claim};
ghost use Rattle.claiming.specs.Claiming.{entries_in};
ghost use Rattle.selecting.specs.Phasing.{given_keys};
ghost use Rattle.outcome.specs.Outcome.{LeavesWith};
ghost use Rattle.public_plans.specs.Entries.{entries_of, planned_of};

use super::{Selection, on_sound};
use outcome::{Refusal, refusals};

// Takes, in order, each entry of the checked list, which is given in 112 bytes each, whose hash is unowned and that is still what plan would choose for it: its
// connection becomes the owner. Those that are taken stand in the answer.
pub fn claim(s: &mut [u8], clock: u64, checked: &[u8], answer: &mut [u8]) -> Result<u64, Refusal>
    ensures { LeavesWith (On (Claim clock (entries_in checked.now) answer.old)) s.old s.new answer.new (entries_of result) }
{
    refusals::of_store(s)?;
    on_sound::plans::claim(s, clock, checked, answer)
}

// Plans over all keys after the ready cursor and round to it, which becomes the last key considered. What it selects stands in the answer in 112 bytes an entry.
pub fn plan(s: &mut [u8], clock: u64, answer: &mut [u8]) -> Result<Selection, Refusal>
    ensures { LeavesWith (On (Plan clock none answer.old)) s.old s.new answer.new (planned_of result) }
{
    refusals::of_store(s)?;
    on_sound::plans::plan(s, clock, answer)
}

// The same over the keys that are given in 40 bytes each; the ready cursor stays.
pub fn plan_given(
    s: &mut [u8],
    clock: u64,
    given: &[u8],
    answer: &mut [u8],
) -> Result<Selection, Refusal>
    ensures { LeavesWith (On (Plan clock (some (given_keys given.now)) answer.old)) s.old s.new answer.new (planned_of result) }
{
    refusals::of_store(s)?;
    on_sound::plans::plan_given(s, clock, given, answer)
}

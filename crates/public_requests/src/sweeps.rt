// The public calls of the known cursor and of the poll time: sweep and the poll gate (document 01, module 6).
#![tactic(auto, using(outcome::proofs::Owned::unsound), unfolding(machine::specs::Call::named))]

ghost use Rattle.machine.specs.Call.{On, Sweep, PollGate};
ghost use Rattle.outcome.specs.Outcome.{Leaves, LeavesWith};
ghost use Rattle.outcome.specs.Reply.{reply_of, listing_of};

use super::on_sound;
use outcome::{Refusal, refusals};

// Hands out the next keys after the known cursor and round to it, which becomes the last of them. They stand in the answer.
pub fn sweep(s: &mut [u8], answer: &mut [u8]) -> Result<u64, Refusal>
    ensures { LeavesWith (On (Sweep answer.old)) s.old s.new answer.new (listing_of result) }
{
    refusals::of_store(s)?;
    on_sound::sweeps::sweep(s, answer)
}

// Whether a poll is due: the reply is 1 at most every 100 milliseconds.
pub fn poll_gate(s: &mut [u8], clock: u64) -> Result<u64, Refusal>
    ensures { Leaves (On (PollGate clock)) s.old s.new (reply_of result) }
{
    refusals::of_store(s)?;
    on_sound::sweeps::poll_gate(s, clock)
}

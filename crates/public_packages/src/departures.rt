// The public call of a connection that leaves: disconnected (document 01, "The request machine").
#![tactic(auto, using(outcome::proofs::Owned::unsound), unfolding(machine::specs::Call::named))]

ghost use Rattle.machine.specs.Call.{On, Disconnected};
ghost use Rattle.outcome.specs.Outcome.{LeavesWith};
ghost use Rattle.outcome.specs.Reply.{departure_of};

use super::on_sound;
use outcome::{Departure, Refusal, refusals};

// The connection is gone: it leaves every request that it is a candidate of. The keys of these stand in the answer, and behind them the keys of parents that are
// announced for the candidates left.
pub fn disconnected(
    s: &mut [u8],
    connection: u64,
    clock: u64,
    answer: &mut [u8],
) -> Result<Departure, Refusal>
    ensures { LeavesWith (On (Disconnected connection clock answer.old)) s.old s.new answer.new (departure_of result) }
{
    refusals::of_store(s)?;
    on_sound::departures::disconnected(s, connection, clock, answer)
}

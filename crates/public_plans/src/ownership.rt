// The public call that tells the owners of many hashes (document 02, request e).
#![tactic(auto, using(crate::proofs::Unsound::unsound), unfolding(machine::specs::Call::named))]

ghost use Rattle.machine.specs.Call.{On, OwnersOf};
ghost use Rattle.lent_lists.specs.Lists.{hashes_in};
ghost use Rattle.outcome.specs.Outcome.{LeavesWith};
ghost use Rattle.public_plans.specs.Ownership.{owners_of};

use super::on_sound;
use outcome::{Refusal, refusals};

// Who owns each of up to 1,024 hashes, given in strictly ascending order, 32 bytes each: kind, connection and deadline stand in the answer in 24 bytes a hash. The
// number is how many held keys have a hash that is not above the greatest of them. The store is only read.
pub fn owners_of(s: &[u8], hashes: &[u8], answer: &mut [u8]) -> Result<u64, Refusal>
    ensures { LeavesWith (On (OwnersOf (hashes_in hashes.now) answer.old)) s.now s.now
        answer.new (owners_of (hashes_in hashes.now) result) }
{
    refusals::of_store(s)?;
    on_sound::ownership::owners_of(s, hashes, answer)
}

// The public calls of a failed or withdrawn request: failed, failed_with_parents, unclaim and forget (document 01, "The request machine").
#![tactic(auto, using(outcome::proofs::Owned::unsound), unfolding(machine::specs::Call::named))]

ghost use Rattle.ident.specs.Words.{key_num};
ghost use Rattle.machine.specs.Call.{On, Failed, FailedWithParents, Unclaim, Forget};
ghost use Rattle.outcome.specs.Outcome.{Leaves, LeavesWith};
ghost use Rattle.outcome.specs.Reply.{reply_of, listing_of};

use super::on_sound;
use outcome::{Refusal, refusals};

// The owner of the request at the key failed to deliver. The reply is 0 unless the connection owns it and its package is not Enqueued.
pub fn failed(s: &mut [u8], key: ident::Key, connection: u64, clock: u64) -> Result<u64, Refusal>
    ensures { Leaves (On (Failed (key_num key) connection clock)) s.old s.new (reply_of result) }
{
    refusals::of_store(s)?;
    on_sound::failures::failed(s, key, connection, clock)
}

// failed, and the parents of the request are requested of the connection. The key and those of the parents that are kept stand in the answer; none does where
// failed would reply 0.
pub fn failed_with_parents(
    s: &mut [u8],
    key: ident::Key,
    connection: u64,
    clock: u64,
    answer: &mut [u8],
) -> Result<u64, Refusal>
    ensures { LeavesWith (On (FailedWithParents (key_num key) connection clock answer.old)) s.old s.new answer.new (listing_of result) }
{
    refusals::of_store(s)?;
    on_sound::failures::failed_with_parents(s, key, connection, clock, answer)
}

// The owner gives the request back and stays a candidate.
pub fn unclaim(s: &mut [u8], key: ident::Key, connection: u64) -> Result<u64, Refusal>
    ensures { Leaves (On (Unclaim (key_num key) connection)) s.old s.new (reply_of result) }
{
    refusals::of_store(s)?;
    on_sound::failures::unclaim(s, key, connection)
}

// The request at the key goes.
pub fn forget(s: &mut [u8], key: ident::Key) -> Result<u64, Refusal>
    ensures { Leaves (On (Forget (key_num key))) s.old s.new (reply_of result) }
{
    refusals::of_store(s)?;
    on_sound::failures::forget(s, key)
}

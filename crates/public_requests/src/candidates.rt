// The public calls that bring candidates: announce, request_parent and announce_parents (document 01, "The request machine").
#![tactic(auto, using(outcome::proofs::Owned::unsound), unfolding(machine::specs::Call::named))]

ghost use Rattle.machine.specs.Call.{On, Announce, RequestParent, AnnounceParents};
ghost use Rattle.lent_lists.specs.Lists.{hashes_in};
ghost use Rattle.requests.specs.Changes.{candidate_of};
ghost use Rattle.outcome.specs.Outcome.{Leaves, LeavesWith};
ghost use Rattle.outcome.specs.Reply.{reply_of, listing_of};

use super::on_sound;
use outcome::{Refusal, refusals};

// A connection can deliver an item. The reply is 1 if it is kept as a candidate of the item's key.
pub fn announce(s: &mut [u8], c: requests::Candidate) -> Result<u64, Refusal>
    ensures { Leaves (On (Announce (candidate_of c))) s.old s.new (reply_of result) }
{
    refusals::of_store(s)?;
    on_sound::candidates::announce(s, c)
}

// The same for a parent that is missing. A connection that is a candidate already gets 1: it takes the smaller ready time and priority, and
// turns preferred.
pub fn request_parent(s: &mut [u8], c: requests::Candidate) -> Result<u64, Refusal>
    ensures { Leaves (On (RequestParent (candidate_of c))) s.old s.new (reply_of result) }
{
    refusals::of_store(s)?;
    on_sound::candidates::request_parent(s, c)
}

// Requests the parents of a transaction, 32 bytes each, of the connection. The keys of those that are kept stand in the answer.
pub fn announce_parents(
    s: &mut [u8],
    connection: u64,
    parents: &[u8],
    clock: u64,
    answer: &mut [u8],
) -> Result<u64, Refusal>
    ensures { LeavesWith (On (AnnounceParents connection (hashes_in parents.now) clock answer.old)) s.old s.new answer.new (listing_of result) }
{
    refusals::of_store(s)?;
    on_sound::candidates::announce_parents(s, connection, parents, clock, answer)
}

// The public calls that give package claims up: forget_known, failed_package_claims and teardown_package_claims (document 01, "The request machine").
#![tactic(auto, using(outcome::proofs::Owned::unsound), unfolding(machine::specs::Call::named))]

ghost use Rattle.ident.specs.Words.{key_num};
ghost use Rattle.machine.specs.Call.{On, ForgetKnown, FailedPackageClaims, TeardownPackageClaims};
ghost use Rattle.lent_lists.specs.Lists.{hashes_in};
ghost use Rattle.outcome.specs.Outcome.{Leaves, LeavesWith};
ghost use Rattle.outcome.specs.Reply.{reply_of, listing_of};

use super::on_sound;
use outcome::{Refusal, refusals};

// The transaction of the request at the key is known: the request goes, and its parents are announced for its owner. It stays if a package is still to come of it: an
// Enqueued one, or one claimed or asked for of an owner in time.
pub fn forget_known(s: &mut [u8], key: ident::Key, clock: u64) -> Result<u64, Refusal>
    ensures { Leaves (On (ForgetKnown (key_num key) clock)) s.old s.new (reply_of result) }
{
    refusals::of_store(s)?;
    on_sound::package_claims::forget_known(s, key, clock)
}

// The claims of the connection whose packages have one of the combined hashes, which are given in 32 bytes each, have failed; of two with one hash, that at the
// greater key. Their keys stand in the answer, each followed by those of its parents that are kept.
pub fn failed_package_claims(
    s: &mut [u8],
    connection: u64,
    combined: &[u8],
    clock: u64,
    answer: &mut [u8],
) -> Result<u64, Refusal>
    ensures { LeavesWith (On (FailedPackageClaims connection (hashes_in combined.now) clock answer.old)) s.old s.new
        answer.new (listing_of result) }
{
    refusals::of_store(s)?;
    on_sound::package_claims::failed_package_claims(s, connection, combined, clock, answer)
}

// Every package goes, whatever its phase, and its owner leaves the request. The reply is how many went.
pub fn teardown_package_claims(s: &mut [u8], clock: u64) -> Result<u64, Refusal>
    ensures { Leaves (On (TeardownPackageClaims clock)) s.old s.new (reply_of result) }
{
    refusals::of_store(s)?;
    on_sound::package_claims::teardown_package_claims(s, clock)
}

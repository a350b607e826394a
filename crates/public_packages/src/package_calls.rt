// The public calls on a package: claim_package, begin_package_resolution and release_package (document 01, "The request machine").
#![tactic(auto, using(outcome::proofs::Owned::unsound), unfolding(machine::specs::Call::named))]

ghost use Rattle.ident.specs.Words.{hash_num};
ghost use Rattle.machine.specs.Call.{On, ClaimPackage, BeginPackageResolution, ReleasePackage};
ghost use Rattle.lent_lists.specs.Lists.{hashes_in};
ghost use Rattle.outcome.specs.Outcome.{Leaves, LeavesWith};
ghost use Rattle.outcome.specs.Reply.{reply_of, listing_of};

use super::on_sound;
use outcome::{Refusal, refusals};

// The package info of the request at the Wtxid key of `subject` has come: its owner has until the deadline to get the package, whose
// wtxids are given in 32 bytes each. The reply is 0 unless they are 1 to 100.
pub fn claim_package(
    s: &mut [u8],
    connection: u64,
    subject: ident::Wtxid,
    combined: ident::Hash,
    wtxids: &[u8],
    clock: u64,
) -> Result<u64, Refusal>
    ensures { Leaves (On (ClaimPackage connection (hash_num subject.0) (hash_num combined) (hashes_in wtxids.now) clock)) s.old s.new (reply_of result) }
{
    refusals::of_store(s)?;
    on_sound::package_calls::claim_package(s, connection, subject, combined, wtxids, clock)
}

// The package itself has come: it waits in the queue from now on, and no deadline ends it. The reply is 0 unless combined hash and
// wtxids are those that were claimed, in their order.
pub fn begin_package_resolution(
    s: &mut [u8],
    connection: u64,
    subject: ident::Wtxid,
    combined: ident::Hash,
    wtxids: &[u8],
    clock: u64,
) -> Result<u64, Refusal>
    ensures { Leaves (On (BeginPackageResolution connection (hash_num subject.0) (hash_num combined) (hashes_in wtxids.now) clock)) s.old s.new (reply_of result) }
{
    refusals::of_store(s)?;
    on_sound::package_calls::begin_package_resolution(
        s, connection, subject, combined, wtxids, clock,
    )
}

// The package in the queue at the Wtxid key of `subject`, if the connection owns it, is given up: the connection leaves, and is asked for the parents. The key
// and those of the parents that are kept stand in the answer; none does where there is no such package.
pub fn release_package(
    s: &mut [u8],
    connection: u64,
    subject: ident::Wtxid,
    clock: u64,
    answer: &mut [u8],
) -> Result<u64, Refusal>
    ensures { LeavesWith (On (ReleasePackage connection (hash_num subject.0) clock answer.old)) s.old s.new answer.new (listing_of result) }
{
    refusals::of_store(s)?;
    on_sound::package_calls::release_package(s, connection, subject, clock, answer)
}

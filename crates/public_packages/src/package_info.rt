// The public calls on package info: solicit_package_info, failed_package_info and package_info_owner (document 01, "The request machine").
#![tactic(auto, using(outcome::proofs::Owned::unsound), unfolding(machine::specs::Call::named))]

ghost use Rattle.ident.specs.Words.{hash_num, key_num};
ghost use Rattle.machine.specs.Call.{On, SolicitPackageInfo, FailedPackageInfo, PackageInfoOwner};
ghost use Rattle.lent_lists.specs.Lists.{hashes_in};
ghost use Rattle.outcome.specs.Outcome.{Leaves};
ghost use Rattle.outcome.specs.Reply.{reply_of};

use super::on_sound;
use outcome::{Refusal, refusals};

// The connection is asked for the package info of the transaction with the wtxid `subject`, whose parents are given in 32 bytes each. The reply is 0 if the hash is owned, if the
// connection owns 100 requests, or if it is no candidate and is not kept as one.
pub fn solicit_package_info(
    s: &mut [u8],
    connection: u64,
    subject: ident::Wtxid,
    parents: &[u8],
    clock: u64,
) -> Result<u64, Refusal>
    ensures { Leaves (On (SolicitPackageInfo connection (hash_num subject.0) (hashes_in parents.now) clock)) s.old s.new (reply_of result) }
{
    refusals::of_store(s)?;
    on_sound::package_info::solicit_package_info(s, connection, subject, parents, clock)
}

// failed, of a connection that is asked for package info. The reply is 0 unless it is.
pub fn failed_package_info(
    s: &mut [u8],
    key: ident::Key,
    connection: u64,
    clock: u64,
) -> Result<u64, Refusal>
    ensures { Leaves (On (FailedPackageInfo (key_num key) connection clock)) s.old s.new (reply_of result) }
{
    refusals::of_store(s)?;
    on_sound::package_info::failed_package_info(s, key, connection, clock)
}

// The connection that is asked for package info of the request at the key, and in time; 0, if there is none.
pub fn package_info_owner(s: &[u8], key: ident::Key, clock: u64) -> Result<u64, Refusal>
    ensures { Leaves (On (PackageInfoOwner (key_num key) clock)) s.now s.now (reply_of result) }
{
    refusals::of_store(s)?;
    on_sound::package_info::package_info_owner(s, key, clock)
}

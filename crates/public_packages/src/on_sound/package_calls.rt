// claim_package, begin_package_resolution and release_package on a sound store.
ghost use Rattle.ident.specs.Words.{hash_num};
ghost use Rattle.machine.specs.Call.{On, ClaimPackage, BeginPackageResolution, ReleasePackage};
ghost use Rattle.lent_lists.specs.Lists.{hashes_in};
ghost use Rattle.store.specs.Image.{SoundStore};
ghost use Rattle.outcome.specs.Outcome.{Leaves, LeavesWith};
ghost use Rattle.outcome.specs.Reply.{reply_of, listing_of};

use outcome::{Refusal, refusals, replied};

pub fn claim_package(
    s: &mut [u8],
    connection: u64,
    subject: ident::Wtxid,
    combined: ident::Hash,
    wtxids: &[u8],
    clock: u64,
) -> Result<u64, Refusal>
    requires { SoundStore s.old }
    ensures { Leaves (On (ClaimPackage connection (hash_num subject.0) (hash_num combined) (hashes_in wtxids.now) clock)) s.old s.new (reply_of result) }
{
    refusals::of_connection_and_clock(connection, clock)?;
    let n = refusals::need_of(s);
    Ok(replied(soliciting::claim_package(
        &mut s[..n],
        connection,
        subject,
        combined,
        wtxids,
        clock,
    )))
}

pub fn begin_package_resolution(
    s: &mut [u8],
    connection: u64,
    subject: ident::Wtxid,
    combined: ident::Hash,
    wtxids: &[u8],
    clock: u64,
) -> Result<u64, Refusal>
    requires { SoundStore s.old }
    ensures { Leaves (On (BeginPackageResolution connection (hash_num subject.0) (hash_num combined) (hashes_in wtxids.now) clock)) s.old s.new (reply_of result) }
{
    refusals::of_connection_and_clock(connection, clock)?;
    let n = refusals::need_of(s);
    Ok(replied(soliciting::begin_package_resolution(
        &mut s[..n],
        connection,
        subject,
        combined,
        wtxids,
        clock,
    )))
}

pub fn release_package(
    s: &mut [u8],
    connection: u64,
    subject: ident::Wtxid,
    clock: u64,
    answer: &mut [u8],
) -> Result<u64, Refusal>
    requires { SoundStore s.old }
    ensures { LeavesWith (On (ReleasePackage connection (hash_num subject.0) clock answer.old)) s.old s.new answer.new (listing_of result) }
{
    let (connection, clock) = refusals::in_turn(
        connection,
        clock,
        0,
        answer.len(),
        refusals::KEYS_ANSWER,
    )?;
    let n = refusals::need_of(s);
    let listed = failing::release_package(&mut s[..n], connection, subject, clock.time, answer);
    Ok(listed as u64)
}

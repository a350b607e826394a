// The calls on packages, for C and Rust. A call that is refused hands nothing out.
ghost use Rattle.machine.specs.Call.{On, SolicitPackageInfo, ClaimPackage, BeginPackageResolution, ReleasePackage};
ghost use Rattle.lent_lists.specs.Lists.{hashes_in};
ghost use Rattle.crossing.specs.Arguments.{hash_given};
ghost use Rattle.crossing.specs.Status.{HandsOut, HandsKeys};

use crossing::hand_out;

// The connection is asked for the package info of the transaction with that wtxid, whose parents are given in 32 bytes each. The reply is 0 if the hash is owned, if
// the connection owns 100 requests, or if it is no candidate and is not kept as one.
#[unsafe(no_mangle)]
pub extern "C" fn tracker_solicit_package_info(
    s: &mut [u8],
    connection: u64,
    hash: &[u8; 32],
    parents: &[u8],
    clock: u64,
    reply: &mut u64,
) -> u64
    ensures { HandsOut (On (SolicitPackageInfo connection (hash_given hash.now) (hashes_in parents.now) clock))
        s.old s.new result reply.old reply.new }
{
    let subject = ident::Wtxid(ident::Hash::from(hash));
    let a = public_packages::package_info::solicit_package_info(
        s, connection, subject, parents, clock,
    );
    hand_out(a, reply)
}

// The package info of the request at the Wtxid key has come: its owner has until the deadline to get the package, whose wtxids are given in 32 bytes each. The
// reply is 0 unless they are 1 to 100.
#[unsafe(no_mangle)]
pub extern "C" fn tracker_claim_package(
    s: &mut [u8],
    connection: u64,
    hash: &[u8; 32],
    combined: &[u8; 32],
    wtxids: &[u8],
    clock: u64,
    reply: &mut u64,
) -> u64
    ensures { HandsOut (On (ClaimPackage connection (hash_given hash.now) (hash_given combined.now) (hashes_in wtxids.now) clock))
        s.old s.new result reply.old reply.new }
{
    let subject = ident::Wtxid(ident::Hash::from(hash));
    let combined = ident::Hash::from(combined);
    let a = public_packages::package_calls::claim_package(
        s, connection, subject, combined, wtxids, clock,
    );
    hand_out(a, reply)
}

// The package itself has come: it waits in the queue from now on, and no deadline ends it. The reply is 0 unless combined hash and wtxids are those that were
// claimed, in their order.
#[unsafe(no_mangle)]
pub extern "C" fn tracker_begin_package_resolution(
    s: &mut [u8],
    connection: u64,
    hash: &[u8; 32],
    combined: &[u8; 32],
    wtxids: &[u8],
    clock: u64,
    reply: &mut u64,
) -> u64
    ensures { HandsOut (On (BeginPackageResolution connection (hash_given hash.now) (hash_given combined.now) (hashes_in wtxids.now) clock))
        s.old s.new result reply.old reply.new }
{
    let subject = ident::Wtxid(ident::Hash::from(hash));
    let combined = ident::Hash::from(combined);
    let a = public_packages::package_calls::begin_package_resolution(
        s, connection, subject, combined, wtxids, clock,
    );
    hand_out(a, reply)
}

// The package in the queue at the Wtxid key, if the connection owns it, is given up: the connection leaves, and is asked for the parents. The key and those of the
// parents that are kept stand in the answer: so many as `count` says, and none where there is no such package.
#[unsafe(no_mangle)]
pub extern "C" fn tracker_release_package(
    s: &mut [u8],
    connection: u64,
    hash: &[u8; 32],
    clock: u64,
    answer: &mut [u8],
    count: &mut u64,
) -> u64
    ensures { HandsKeys (On (ReleasePackage connection (hash_given hash.now) clock answer.old))
        s.old s.new answer.new result count.old count.new }
{
    let subject = ident::Wtxid(ident::Hash::from(hash));
    let l = public_packages::package_calls::release_package(s, connection, subject, clock, answer);
    hand_out(l, count)
}

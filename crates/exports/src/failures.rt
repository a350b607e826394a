// The calls of a failed or withdrawn request, for C and Rust. A call that is refused hands nothing out.
ghost use Rattle.machine.specs.Call.{On, Failed, FailedWithParents, Unclaim, Forget, ForgetKnown, FailedPackageInfo, PackageInfoOwner};
ghost use Rattle.outcome.specs.Outcome.{Leaves};
ghost use Rattle.crossing.specs.Arguments.{key_given};
ghost use Rattle.crossing.specs.Status.{numbered, HandsOut, HandsKeys};

use crossing::arguments::key_given;
use crossing::{hand_out, status};

// The owner of the request at the key failed to deliver. The reply is 0 unless the connection owns it and its package is not Enqueued.
#[unsafe(no_mangle)]
pub extern "C" fn tracker_failed(
    s: &mut [u8],
    kind: u64,
    hash: &[u8; 32],
    connection: u64,
    clock: u64,
    reply: &mut u64,
) -> u64
    ensures { HandsOut (On (Failed (key_given kind hash.now) connection clock)) s.old s.new result reply.old reply.new }
{
    let k = key_given(kind, hash);
    let a = public_requests::failures::failed(s, k, connection, clock);
    hand_out(a, reply)
}

// failed, and the parents of the request are requested of the connection. The key and those of the parents that are kept stand in the answer: so many as
// `count` says, and none where failed would reply 0.
#[unsafe(no_mangle)]
pub extern "C" fn tracker_failed_with_parents(
    s: &mut [u8],
    kind: u64,
    hash: &[u8; 32],
    connection: u64,
    clock: u64,
    answer: &mut [u8],
    count: &mut u64,
) -> u64
    ensures { HandsKeys (On (FailedWithParents (key_given kind hash.now) connection clock answer.old))
        s.old s.new answer.new result count.old count.new }
{
    let k = key_given(kind, hash);
    let l = public_requests::failures::failed_with_parents(s, k, connection, clock, answer);
    hand_out(l, count)
}

// The owner gives the request back and stays a candidate. Carried out, it replies 1.
#[unsafe(no_mangle)]
pub extern "C" fn tracker_unclaim(s: &mut [u8], kind: u64, hash: &[u8; 32], connection: u64) -> u64
    ensures { Leaves (On (Unclaim (key_given kind hash.now) connection)) s.old s.new (numbered result 1) }
{
    let k = key_given(kind, hash);
    status(public_requests::failures::unclaim(s, k, connection))
}

// The request at the key goes. Carried out, it replies 1.
#[unsafe(no_mangle)]
pub extern "C" fn tracker_forget(s: &mut [u8], kind: u64, hash: &[u8; 32]) -> u64
    ensures { Leaves (On (Forget (key_given kind hash.now))) s.old s.new (numbered result 1) }
{
    let k = key_given(kind, hash);
    status(public_requests::failures::forget(s, k))
}

// The transaction of the request at the key is known: the request goes, and its parents are announced for its owner. It stays if a package is still to come of it.
// Carried out, it replies 1.
#[unsafe(no_mangle)]
pub extern "C" fn tracker_forget_known(s: &mut [u8], kind: u64, hash: &[u8; 32], clock: u64) -> u64
    ensures { Leaves (On (ForgetKnown (key_given kind hash.now) clock)) s.old s.new (numbered result 1) }
{
    let k = key_given(kind, hash);
    status(public_packages::package_claims::forget_known(s, k, clock))
}

// failed, of a connection that is asked for package info. The reply is 0 unless it is.
#[unsafe(no_mangle)]
pub extern "C" fn tracker_failed_package_info(
    s: &mut [u8],
    kind: u64,
    hash: &[u8; 32],
    connection: u64,
    clock: u64,
    reply: &mut u64,
) -> u64
    ensures { HandsOut (On (FailedPackageInfo (key_given kind hash.now) connection clock)) s.old s.new result reply.old reply.new }
{
    let k = key_given(kind, hash);
    let a = public_packages::package_info::failed_package_info(s, k, connection, clock);
    hand_out(a, reply)
}

// The connection that is asked for package info of the request at the key, and in time; 0, if there is none.
#[unsafe(no_mangle)]
pub extern "C" fn tracker_package_info_owner(
    s: &[u8],
    kind: u64,
    hash: &[u8; 32],
    clock: u64,
    owner: &mut u64,
) -> u64
    ensures { HandsOut (On (PackageInfoOwner (key_given kind hash.now) clock)) s.now s.now result owner.old owner.new }
{
    let k = key_given(kind, hash);
    let a = public_packages::package_info::package_info_owner(s, k, clock);
    hand_out(a, owner)
}

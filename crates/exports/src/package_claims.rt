// failed_package_claims and teardown_package_claims, for C and Rust. A call that is refused hands nothing out.
ghost use Rattle.machine.specs.Call.{On, FailedPackageClaims, TeardownPackageClaims};
ghost use Rattle.lent_lists.specs.Lists.{hashes_in};
ghost use Rattle.crossing.specs.Status.{HandsOut, HandsKeys};

use crossing::hand_out;

// The claims of the connection whose packages have one of the combined hashes, which are given in 32 bytes each, have failed; of two with one hash, that at the
// greater key. Their keys stand in the answer, each followed by those of its parents that are kept: so many as `count` says.
#[unsafe(no_mangle)]
pub extern "C" fn tracker_failed_package_claims(
    s: &mut [u8],
    connection: u64,
    combined: &[u8],
    clock: u64,
    answer: &mut [u8],
    count: &mut u64,
) -> u64
    ensures { HandsKeys (On (FailedPackageClaims connection (hashes_in combined.now) clock answer.old))
        s.old s.new answer.new result count.old count.new }
{
    let l = public_packages::package_claims::failed_package_claims(
        s, connection, combined, clock, answer,
    );
    hand_out(l, count)
}

// Every package goes, whatever its phase, and its owner leaves the request. `count` says how many went.
#[unsafe(no_mangle)]
pub extern "C" fn tracker_teardown_package_claims(s: &mut [u8], clock: u64, count: &mut u64) -> u64
    ensures { HandsOut (On (TeardownPackageClaims clock)) s.old s.new result count.old count.new }
{
    let a = public_packages::package_claims::teardown_package_claims(s, clock);
    hand_out(a, count)
}

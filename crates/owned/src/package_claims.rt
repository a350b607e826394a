// failed_package_claims and teardown_package_claims, of an owner.
ghost use Rattle.machine.specs.Call.{On, FailedPackageClaims, TeardownPackageClaims};
ghost use Rattle.store.specs.Image.{SoundStore};
ghost use Rattle.lent_lists.specs.Lists.{hashes_in};
ghost use Rattle.crossing.specs.Status.{HandsOut, HandsKeys};

// The claims of the connection whose packages have one of the combined hashes, which are given in 32 bytes each, have failed; of two with one hash, that at the
// greater key. Their keys stand in the answer, each followed by those of its parents that are kept: so many as `count` says.
#[unsafe(no_mangle)]
pub extern "C" fn tracker_owned_failed_package_claims(
    s: &mut [u8],
    connection: u64,
    combined: &[u8],
    clock: u64,
    answer: &mut [u8],
    count: &mut u64,
) -> u64
    requires { SoundStore s.old }
    ensures hands_keys { HandsKeys (On (FailedPackageClaims connection (hashes_in combined.now) clock answer.old))
        s.old s.new answer.new result count.old count.new }
    ensures sound { SoundStore s.new }
{
    let l = public_packages::on_sound::package_claims::failed_package_claims(
        s, connection, combined, clock, answer,
    );
    crossing::hand_out(l, count)
}

// Every package goes, whatever its phase, and its owner leaves the request. `count` says how many went.
#[unsafe(no_mangle)]
pub extern "C" fn tracker_owned_teardown_package_claims(
    s: &mut [u8],
    clock: u64,
    count: &mut u64,
) -> u64
    requires { SoundStore s.old }
    ensures hands_out { HandsOut (On (TeardownPackageClaims clock)) s.old s.new result count.old count.new }
    ensures sound { SoundStore s.new }
{
    let a = public_packages::on_sound::package_claims::teardown_package_claims(s, clock);
    crossing::hand_out(a, count)
}

// forget_known, failed_package_claims and teardown_package_claims on a sound store.
ghost use Rattle.std.specs.Prelude.{◌≡◌, ◌+◌, ◌*◌};
ghost use Rattle.ident.specs.Words.{key_num};
ghost use Rattle.machine.specs.Limits.{max_parents};
ghost use Rattle.machine.specs.Call.{On, ForgetKnown, FailedPackageClaims, TeardownPackageClaims, key_bytes};
ghost use Rattle.lent_lists.specs.Lists.{hashes_in};
ghost use Rattle.store.specs.Image.{SoundStore};
ghost use Rattle.outcome.specs.Outcome.{Leaves, LeavesWith};
ghost use Rattle.outcome.specs.Reply.{reply_of, listing_of};

use outcome::{Refusal, refusals};

pub fn forget_known(s: &mut [u8], key: ident::Key, clock: u64) -> Result<u64, Refusal>
    requires { SoundStore s.old }
    ensures { Leaves (On (ForgetKnown (key_num key) clock)) s.old s.new (reply_of result) }
{
    refusals::of_clock(clock)?;
    let n = refusals::need_of(s);
    claims::forget_known(&mut s[..n], key, clock);
    Ok(outcome::RETURNED)
}

// The bytes that the answer of failed_package_claims may need: 101 × Q keys.
fn claims_needs(s: &[u8]) -> usize
    requires { SoundStore s.now }
    ensures { (w : SoundStore s.now) → result ≡ key_bytes * ((max_parents + 1) * w.state.places) }
{
    let q = store::head::places(s);
    q * refusals::KEYS_ANSWER
}

pub fn failed_package_claims(
    s: &mut [u8],
    connection: u64,
    combined: &[u8],
    clock: u64,
    answer: &mut [u8],
) -> Result<u64, Refusal>
    requires { SoundStore s.old }
    ensures { LeavesWith (On (FailedPackageClaims connection (hashes_in combined.now) clock answer.old)) s.old s.new
        answer.new (listing_of result) }
{
    let needs = claims_needs(s);
    let (connection, clock) = refusals::in_turn(connection, clock, 0, answer.len(), needs)?;
    let n = refusals::need_of(s);
    let listed = claims::waiting::failed_package_claims(
        &mut s[..n],
        connection,
        combined,
        clock.time,
        answer,
    );
    Ok(listed as u64)
}

pub fn teardown_package_claims(s: &mut [u8], clock: u64) -> Result<u64, Refusal>
    requires { SoundStore s.old }
    ensures { Leaves (On (TeardownPackageClaims clock)) s.old s.new (reply_of result) }
{
    refusals::of_clock(clock)?;
    let n = refusals::need_of(s);
    let cleared = tearing::teardown_package_claims(&mut s[..n], clock);
    Ok(cleared as u64)
}

// failed, failed_with_parents, unclaim and forget on a sound store.
ghost use Rattle.ident.specs.Words.{key_num};
ghost use Rattle.machine.specs.Call.{On, Failed, FailedWithParents, Unclaim, Forget};
ghost use Rattle.store.specs.Image.{SoundStore};
ghost use Rattle.outcome.specs.Outcome.{Leaves, LeavesWith};
ghost use Rattle.outcome.specs.Reply.{reply_of, listing_of};

use outcome::{Refusal, refusals, replied};

pub fn failed(s: &mut [u8], key: ident::Key, connection: u64, clock: u64) -> Result<u64, Refusal>
    requires { SoundStore s.old }
    ensures { Leaves (On (Failed (key_num key) connection clock)) s.old s.new (reply_of result) }
{
    refusals::of_connection_and_clock(connection, clock)?;
    let n = refusals::need_of(s);
    Ok(replied(failing::failed(&mut s[..n], key, connection, clock)))
}

pub fn failed_with_parents(
    s: &mut [u8],
    key: ident::Key,
    connection: u64,
    clock: u64,
    answer: &mut [u8],
) -> Result<u64, Refusal>
    requires { SoundStore s.old }
    ensures { LeavesWith (On (FailedWithParents (key_num key) connection clock answer.old)) s.old s.new answer.new (listing_of result) }
{
    let (connection, clock) = refusals::in_turn(
        connection,
        clock,
        0,
        answer.len(),
        refusals::KEYS_ANSWER,
    )?;
    let n = refusals::need_of(s);
    let listed = failing::failed_with_parents(&mut s[..n], key, connection, clock.time, answer);
    Ok(listed as u64)
}

pub fn unclaim(s: &mut [u8], key: ident::Key, connection: u64) -> Result<u64, Refusal>
    requires { SoundStore s.old }
    ensures { Leaves (On (Unclaim (key_num key) connection)) s.old s.new (reply_of result) }
{
    refusals::of_connection(connection)?;
    let n = refusals::need_of(s);
    failing::unclaim(&mut s[..n], key, connection);
    Ok(outcome::RETURNED)
}

pub fn forget(s: &mut [u8], key: ident::Key) -> Result<u64, Refusal>
    requires { SoundStore s.old }
    ensures { Leaves (On (Forget (key_num key))) s.old s.new (reply_of result) }
{
    let n = refusals::need_of(s);
    failing::forget(&mut s[..n], key);
    Ok(outcome::RETURNED)
}

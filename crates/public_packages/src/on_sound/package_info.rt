// solicit_package_info, failed_package_info and package_info_owner on a sound store.
ghost use Rattle.std.specs.Prelude.{◌≡◌, true, List, ℕ, length, IfOk};
ghost use Rattle.ident.specs.Words.{hash_num, key_num};
ghost use Rattle.machine.specs.State.{State, limits_of};
ghost use Rattle.machine.specs.Sound.{Sound};
ghost use Rattle.machine.specs.Table.{places_held};
ghost use Rattle.machine.specs.Package.{solicit};
ghost use Rattle.machine.specs.Call.{On, SolicitPackageInfo, FailedPackageInfo, PackageInfoOwner, ask_refusal};
ghost use Rattle.lent_lists.specs.Lists.{hashes_in};
ghost use Rattle.store.specs.Image.{Writes, SoundStore};
ghost use Rattle.store.specs.Shown.{Kept};
ghost use Rattle.outcome.specs.Outcome.{Leaves};
ghost use Rattle.outcome.specs.Refusals.{refusal_in};
ghost use Rattle.outcome.specs.Reply.{reply_of};
ghost use Rattle.outcome.specs.Tests.{of_place};

use ident::connection::Connection;
use machine::clock::Clock;
use outcome::{Refusal, refusals, replied};

// Test 8 of a solicitation, on the bytes of the need.
fn of_place(s: &[u8], connection: u64, subject: ident::Wtxid, clock: u64) -> Result<(), Refusal>
    requires { Kept s.now }
    ensures { (hs : List ℕ) (st : State) → Sound st → Writes s.now st
        → refusal_in result ≡ of_place (solicit (limits_of st) connection (hash_num subject.0) hs clock st.table).reply st.places (places_held st.table) }
{
    if !soliciting::info::would_solicit(s, connection, subject, clock) {
        return Ok(());
    }
    let held = store::head::held_places(s);
    let places = store::head::places(s);
    if held < places {
        return Ok(());
    }
    Err(Refusal::NoPlace)
}

// Tests 4 to 8 of a solicitation with so many parents, and what they have tested.
fn of_solicitation(
    s: &[u8],
    connection: u64,
    subject: ident::Wtxid,
    count: usize,
    clock: u64,
) -> Result<(Connection, Clock), Refusal>
    requires { SoundStore s.now }
    ensures test { (w : SoundStore s.now) (hs : List ℕ) → count ≡ length hs → refusal_in result ≡ ask_refusal true (SolicitPackageInfo connection (hash_num subject.0) hs clock) w.state }
    ensures given { IfOk result (λ named. (named.0.number ≡ connection) × (named.1.time ≡ clock)) }
{
    let named = refusals::in_turn(connection, clock, count, 0, 0)?;
    let n = refusals::need_of(s);
    of_place(&s[..n], connection, subject, clock)?;
    Ok(named)
}

pub fn solicit_package_info(
    s: &mut [u8],
    connection: u64,
    subject: ident::Wtxid,
    parents: &[u8],
    clock: u64,
) -> Result<u64, Refusal>
    requires { SoundStore s.old }
    ensures { Leaves (On (SolicitPackageInfo connection (hash_num subject.0) (hashes_in parents.now) clock)) s.old s.new (reply_of result) }
{
    let count = lent_lists::hashes(parents);
    let (connection, clock) = of_solicitation(s, connection, subject, count, clock)?;
    let n = refusals::need_of(s);
    Ok(replied(soliciting::info::solicit_package_info(
        &mut s[..n],
        connection,
        subject,
        parents,
        clock,
    )))
}

pub fn failed_package_info(
    s: &mut [u8],
    key: ident::Key,
    connection: u64,
    clock: u64,
) -> Result<u64, Refusal>
    requires { SoundStore s.old }
    ensures { Leaves (On (FailedPackageInfo (key_num key) connection clock)) s.old s.new (reply_of result) }
{
    refusals::of_connection_and_clock(connection, clock)?;
    let n = refusals::need_of(s);
    Ok(replied(failing::failed_package_info(&mut s[..n], key, connection, clock)))
}

pub fn package_info_owner(s: &[u8], key: ident::Key, clock: u64) -> Result<u64, Refusal>
    requires { SoundStore s.now }
    ensures { Leaves (On (PackageInfoOwner (key_num key) clock)) s.now s.now (reply_of result) }
{
    refusals::of_clock(clock)?;
    let n = refusals::need_of(s);
    // The call's reply is a number, and that of no connection 0 (PackageInfoOwner of the machine): an Option would be made 0 at each of the three places that hand it on.
    let owner = failing::package_info_owner(&s[..n], key, clock);
    Ok(owner.map_or(0, |owner| owner.number))
}

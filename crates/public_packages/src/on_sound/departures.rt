// disconnected on a sound store.
ghost use Rattle.std.specs.Prelude.{◌≡◌, min, ◌+◌, ◌*◌};
ghost use Rattle.machine.specs.Limits.{max_peer_announcements, max_parents};
ghost use Rattle.machine.specs.Call.{On, Disconnected, key_bytes};
ghost use Rattle.store.specs.Image.{SoundStore};
ghost use Rattle.outcome.specs.Outcome.{LeavesWith};
ghost use Rattle.outcome.specs.Reply.{departure_of};

use machine::limits::{MAX_PARENTS, MAX_PEER_ANNOUNCEMENTS};
use outcome::{Departure, Refusal, refusals};

// The bytes that its answer may need: min(5,000, L) + 100 × Q keys.
fn departure_needs(s: &[u8]) -> usize
    requires { SoundStore s.now }
    ensures { (w : SoundStore s.now) → result ≡ key_bytes * (min max_peer_announcements w.state.limit + max_parents * w.state.places) }
{
    let l = store::head::limit(s);
    let q = store::head::places(s);
    let own = l.min(MAX_PEER_ANNOUNCEMENTS as usize);
    (own + MAX_PARENTS * q) * lent_lists::KEY
}

pub fn disconnected(
    s: &mut [u8],
    connection: u64,
    clock: u64,
    answer: &mut [u8],
) -> Result<Departure, Refusal>
    requires { SoundStore s.old }
    ensures { LeavesWith (On (Disconnected connection clock answer.old)) s.old s.new answer.new (departure_of result) }
{
    let needs = departure_needs(s);
    let (connection, clock) = refusals::in_turn(connection, clock, 0, answer.len(), needs)?;
    let n = refusals::need_of(s);
    let left = leaving::disconnected(&mut s[..n], connection, clock.time, answer);
    // (No From: both types are other crates'.)
    Ok(Departure {
        own: left.own as u64,
        parents: left.parents as u64,
    })
}

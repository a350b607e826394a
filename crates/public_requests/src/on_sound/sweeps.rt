// sweep and the poll gate on a sound store.
ghost use Rattle.std.specs.Prelude.{◌≡◌, min, ◌*◌};
ghost use Rattle.machine.specs.Limits.{max_known_checks};
ghost use Rattle.machine.specs.Call.{On, Sweep, PollGate, key_bytes};
ghost use Rattle.store.specs.Image.{SoundStore};
ghost use Rattle.outcome.specs.Outcome.{Leaves, LeavesWith};
ghost use Rattle.outcome.specs.Reply.{reply_of, listing_of};

use machine::limits::MAX_KNOWN_CHECKS;
use outcome::{Refusal, refusals, replied};

// The bytes that a sweep's answer may need: min(1,024, L) keys.
fn sweep_needs(s: &[u8]) -> usize
    requires { SoundStore s.now }
    ensures { (w : SoundStore s.now) → result ≡ key_bytes * min max_known_checks w.state.limit }
{
    store::head::limit(s).min(MAX_KNOWN_CHECKS) * lent_lists::KEY
}

pub fn sweep(s: &mut [u8], answer: &mut [u8]) -> Result<u64, Refusal>
    requires { SoundStore s.old }
    ensures { LeavesWith (On (Sweep answer.old)) s.old s.new answer.new (listing_of result) }
{
    let needs = sweep_needs(s);
    refusals::of_buffer(answer.len(), needs)?;
    let n = refusals::need_of(s);
    let handed = sweeping::sweep(&mut s[..n], answer);
    Ok(handed as u64)
}

pub fn poll_gate(s: &mut [u8], clock: u64) -> Result<u64, Refusal>
    requires { SoundStore s.old }
    ensures { Leaves (On (PollGate clock)) s.old s.new (reply_of result) }
{
    let clock = refusals::of_clock(clock)?;
    let n = refusals::need_of(s);
    Ok(replied(sweeping::poll_gate(&mut s[..n], clock)))
}

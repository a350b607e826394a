// sweep (the Rust's known_batch) and the poll gate, on the bytes of a sound store (document 01, module 6).
#![tactic(auto, using(requests::proofs::Keeping::kept_shown, crate::proofs::Lent::kept_head))]

ghost use Rattle.std.specs.Prelude.{min, ◌*◌, ◌≤◌, length};
ghost use Rattle.machine.specs.Limits.{max_known_checks};
ghost use Rattle.machine.specs.Call.{key_bytes};
ghost use Rattle.machine.specs.State.{with_next_poll, with_known_cursor};
ghost use Rattle.machine.specs.Sweep.{last_of};
ghost use Rattle.machine.specs.Wrapper.{due_at, next_poll_after};
ghost use Rattle.store.specs.Shown.{limit_in, Kept};
ghost use Rattle.sweeping.specs.Effects.{Replied, KeysHanded};
ghost use Rattle.sweeping.specs.Batches.{next_batch, Batched};

use machine::clock::Clock;
use machine::limits::MAX_KNOWN_CHECKS;
use store::rows::Window;

pub mod batch;

// The next keys after the known cursor and round to it, written to `out`; and the last of them.
pub fn known_batch(s: &[u8], out: &mut [u8]) -> batch::Batch
    requires { Kept s.now × (key_bytes * min max_known_checks (limit_in s.now) ≤ length out.old) }
    ensures { Batched s.now out.old out.new result }
{
    let n = store::head::rows(s);
    let from = batch::after_known(s);
    let none = batch::Batch::nothing();
    let v = batch::keys_in(s, Window { from, to: n }, MAX_KNOWN_CHECKS, out, none);
    batch::keys_in(s, Window { from: 0, to: from }, MAX_KNOWN_CHECKS, out, v)
}

// The same, and the known cursor becomes the last of them. Answers how many they are.
pub fn sweep(s: &mut [u8], out: &mut [u8]) -> usize
    requires { Kept s.old × (key_bytes * min max_known_checks (limit_in s.old) ≤ length out.old) }
    ensures { KeysHanded s.old s.new out.old out.new result (λ st. next_batch st) (λ st. with_known_cursor (last_of (next_batch st)) st) }
{
    let v = known_batch(s, out);
    cursors::move_known(s, v.last);
    v.count
}

// Whether a poll is due; if it is, the next one is 100 milliseconds later.
pub fn poll_gate(s: &mut [u8], clock: Clock) -> bool
    requires { Kept s.old }
    ensures { Replied s.old s.new result (λ st. due_at clock.time st.next_poll) (λ st. with_next_poll (next_poll_after clock.time st.next_poll) st) }
{
    cursors::gate(s, clock)
}

// sweep and the poll gate, for C and Rust. A call that is refused hands nothing out.
ghost use Rattle.machine.specs.Call.{On, Sweep, PollGate};
ghost use Rattle.crossing.specs.Status.{HandsOut, HandsKeys};

use crossing::hand_out;

// The next keys after the known cursor, which becomes the last of them. They stand in the answer: so many as `count` says.
#[unsafe(no_mangle)]
pub extern "C" fn tracker_sweep(s: &mut [u8], answer: &mut [u8], count: &mut u64) -> u64
    ensures { HandsKeys (On (Sweep answer.old)) s.old s.new answer.new result count.old count.new }
{
    let l = public_requests::sweeps::sweep(s, answer);
    hand_out(l, count)
}

// Whether a poll is due. If the reply is 1, the next one is 100 milliseconds later.
#[unsafe(no_mangle)]
pub extern "C" fn tracker_poll_gate(s: &mut [u8], clock: u64, reply: &mut u64) -> u64
    ensures { HandsOut (On (PollGate clock)) s.old s.new result reply.old reply.new }
{
    let a = public_requests::sweeps::poll_gate(s, clock);
    hand_out(a, reply)
}

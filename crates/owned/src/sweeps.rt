// sweep and the poll gate, of an owner.
ghost use Rattle.machine.specs.Call.{On, Sweep, PollGate};
ghost use Rattle.store.specs.Image.{SoundStore};
ghost use Rattle.crossing.specs.Status.{HandsOut, HandsKeys};

// The next keys after the known cursor, which becomes the last of them. They stand in the answer: so many as `count` says.
#[unsafe(no_mangle)]
pub extern "C" fn tracker_owned_sweep(s: &mut [u8], answer: &mut [u8], count: &mut u64) -> u64
    requires { SoundStore s.old }
    ensures hands_keys { HandsKeys (On (Sweep answer.old)) s.old s.new answer.new result count.old count.new }
    ensures sound { SoundStore s.new }
{
    let l = public_requests::on_sound::sweeps::sweep(s, answer);
    crossing::hand_out(l, count)
}

// Whether a poll is due. If the reply is 1, the next one is 100 milliseconds later.
#[unsafe(no_mangle)]
pub extern "C" fn tracker_owned_poll_gate(s: &mut [u8], clock: u64, reply: &mut u64) -> u64
    requires { SoundStore s.old }
    ensures hands_out { HandsOut (On (PollGate clock)) s.old s.new result reply.old reply.new }
    ensures sound { SoundStore s.new }
{
    let a = public_requests::on_sound::sweeps::poll_gate(s, clock);
    crossing::hand_out(a, reply)
}

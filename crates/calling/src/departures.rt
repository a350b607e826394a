// A connection that leaves (`gone`), and its keys as text.
ghost use Rattle.std.specs.Prelude.{◌≤◌, length};
ghost use Rattle.machine.specs.Call.{On};
ghost use Rattle.std.proofs.Math.Option.{some};
ghost use Rattle.reading.specs.Line.{Asks};
ghost use Rattle.asking.specs.Calls.{leave_ask};
ghost use Rattle.reading.specs.Given.{values_of};
ghost use Rattle.printing.specs.Given.{answer_room};
ghost use Rattle.printing.specs.Answers.{Keeping};

use printing::numbers::refusal;
use reading::forms::Values;

pub fn answer_leaving(store: &mut [u8], out: &mut [u8], v: Values) -> usize
    requires { answer_room ≤ length out.old }
    ensures { Keeping (some (Asks (On (leave_ask (values_of v))))) store.old store.new out.old out.new result }
{
    let mut answer = printing::buffers::answer_buffer();
    match public_packages::departures::disconnected(store, v.connection, v.clock, &mut answer) {
        Ok(left) => {
            let n = (left.own + left.parents) as usize;
            printing::keys::put_departure(out, &answer, left.own, n)
        }
        Err(cause) => refusal(out, u64::from(cause)),
    }
}

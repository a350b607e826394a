// Refusals and numbers as text, at the front of the answer buffer.
ghost use Rattle.std.specs.Prelude.{◌≤◌, [], ◌∷◌, length};
ghost use Rattle.machine.specs.Text.{decimal, joined};
ghost use Rattle.printing.specs.Replies.{refusal_text, unreadable};
ghost use Rattle.printing.specs.Given.{answer_room, Printed, NumberPrinted};

use crate::entries::put_number;
use lines::write::{put_bytes, put_decimal};
use outcome::{Figures, Refusal};

pub fn refusal(out: &mut [u8], n: u64) -> usize
    requires { answer_room ≤ length out.old }
    ensures { Printed out.old out.new (refusal_text n) result }
{
    let e = put_bytes(out, 0, b"no,");
    put_decimal(out, e, n)
}

// The answer to a line of no listed form.
pub fn unreadable(out: &mut [u8]) -> usize
    requires { answer_room ≤ length out.old }
    ensures { Printed out.old out.new (refusal_text unreadable) result }
{
    refusal(out, u64::from(Refusal::UnreadableLine))
}

pub fn figures(out: &mut [u8], f: Figures) -> usize
    requires { answer_room ≤ length out.old }
    ensures { Printed out.old out.new (joined (decimal f.held ∷ decimal f.free ∷ decimal f.free_preferred ∷ decimal f.permille ∷ [])) result }
{
    let e = put_decimal(out, 0, f.held);
    let e = put_number(out, e, f.free);
    let e = put_number(out, e, f.free_preferred);
    put_number(out, e, f.permille)
}

// A refusal, or a number.
pub fn number<E>(out: &mut [u8], a: Result<u64, E>) -> usize
where
    u64: From<E>,
    requires { answer_room ≤ length out.old }
    ensures { NumberPrinted ⟦<u64 as From<E>>⟧.from_gives a out.old out.new result }
{
    match a {
        Ok(n) => put_decimal(out, 0, n),
        Err(cause) => refusal(out, u64::from(cause)),
    }
}

// The step on one line, and opening.
ghost use Rattle.std.specs.Prelude.{◌≤◌, length};
ghost use Rattle.std.proofs.Math.Option.{some};
ghost use Rattle.machine.specs.Call.{Open};
ghost use Rattle.reading.specs.Line.{Asks};
ghost use Rattle.asking.specs.Calls.{line_of};
ghost use Rattle.printing.specs.Given.{line_room, answer_room};
ghost use Rattle.printing.specs.Answers.{Answered};

use asking::calls::Asked;
use keeping::kept::Lists;
use lines::write::put_bytes;
use printing::numbers::{refusal, unreadable};

fn answer_open(store: &mut [u8], lists: &mut Lists, out: &mut [u8], l: u64, q: u64) -> usize
    requires { answer_room ≤ length out.old }
    ensures { Answered (some (Asks (Open l q))) lists.old lists.new store.old store.new out.old out.new result }
{
    match public_requests::open(store, l, q) {
        Ok(_) => {
            lists.clear();
            put_bytes(out, 0, b"ok")
        }
        Err(cause) => refusal(out, u64::from(cause)),
    }
}

// The step on one line.
pub fn answer_line(store: &mut [u8], lists: &mut Lists, line: &[u8], out: &mut [u8]) -> usize
    requires { (answer_room ≤ length out.old) × (length line.now ≤ line_room) }
    ensures { Answered (line_of line.now) lists.old lists.new store.old store.new out.old out.new result }
{
    let Some(asked) = asking::calls::call_of(line) else {
        return unreadable(out);
    };
    match asked {
        Asked::Opening(l, q) => answer_open(store, lists, out, l, q),
        Asked::Summing => calling::numbers::answer_sum(store, out),
        Asked::Leaving(v) => calling::departures::answer_leaving(store, out, v),
        Asked::Offers(v, e) => calling::offers::answer_offers(store, line, out, v, e),
        Asked::Planning(v) => keeping::plans::answer_plan(store, lists, out, v.clock),
        Asked::Wanting(v, e) => keeping::plans::answer_want(store, lists, line, out, v, e),
        Asked::Missing(v, e) => calling::missing::answer_missing(store, line, out, v, e),
        Asked::Taking(v) => keeping::plans::answer_take(store, lists, out, v.clock),
        Asked::Sending(e) => keeping::arranging::answer_send(store, lists, line, out, e),
        Asked::Parting(v) => keeping::arranging::answer_part(store, lists, out, v.connection),
        Asked::Number(w, v) => calling::numbers::answer_number(store, out, w, v),
        Asked::Keys(w, v) => calling::listings::answer_keys(store, out, w, v),
        Asked::Hashes(w, v, e) => calling::hashes::answer_hashes(store, line, out, w, v, e),
    }
}

// Plans (`plan`, `want`), and the claim of the last one (`take`): what each lists is kept, and is its text.
ghost use Rattle.std.proofs.Math.Option.{none, some};
ghost use Rattle.std.specs.Prelude.{◌+◌, ◌≤◌, length};
ghost use Rattle.machine.specs.Call.{On, Plan};
ghost use Rattle.selecting.specs.Phasing.{given_keys};
ghost use Rattle.machine.specs.Fields.{rest};
ghost use Rattle.reading.specs.Line.{Asks, Take};
ghost use Rattle.reading.specs.Lists.{key_list_call};
ghost use Rattle.asking.specs.Calls.{answer_buffer, want_ask};
ghost use Rattle.reading.specs.Given.{values_of};
ghost use Rattle.printing.specs.Given.{line_room, answer_room};
ghost use Rattle.printing.specs.Answers.{Answered};

use crate::kept::Lists;
use printing::buffers::answer_buffer;
use printing::numbers::unreadable;
use reading::forms::Values;

pub fn answer_plan(store: &mut [u8], lists: &mut Lists, out: &mut [u8], clock: u64) -> usize
    requires { answer_room ≤ length out.old }
    ensures { Answered (some (Asks (On (Plan clock none answer_buffer)))) lists.old lists.new store.old store.new out.old out.new result }
{
    let mut answer = answer_buffer();
    let a = public_plans::plans::plan(store, clock, &mut answer);
    lists.plan.keep_selection(out, &answer, a)
}

// Plans over the keys that are given, in 40 bytes each. (Two calls of document 01, of one shape: as in `calling::parents`.)
fn plan_given(
    store: &mut [u8],
    lists: &mut Lists,
    out: &mut [u8],
    clock: u64,
    given: &[u8],
) -> usize
    requires { answer_room ≤ length out.old }
    ensures { Answered (some (Asks (On (Plan clock (some (given_keys given.now)) answer_buffer)))) lists.old lists.new store.old store.new
        out.old out.new result }
{
    let mut answer = answer_buffer();
    let a = public_plans::plans::plan_given(store, clock, given, &mut answer);
    lists.plan.keep_selection(out, &answer, a)
}

// The step on a line whose keys stand behind the comma at index e.
pub fn answer_want(
    store: &mut [u8],
    lists: &mut Lists,
    line: &[u8],
    out: &mut [u8],
    v: Values,
    e: usize,
) -> usize
    requires { (answer_room ≤ length out.old) × (length line.now ≤ line_room) }
    ensures { Answered (key_list_call (want_ask (values_of v)) (rest line.now (e + 1))) lists.old lists.new store.old store.new
        out.old out.new result }
{
    let mut buffer = inventory::keys::key_buffer();
    let Some(keys) = inventory::keys::read_list(line, e, &mut buffer) else {
        return unreadable(out);
    };
    plan_given(store, lists, out, v.clock, keys)
}

pub fn answer_take(store: &mut [u8], lists: &mut Lists, out: &mut [u8], clock: u64) -> usize
    requires { answer_room ≤ length out.old }
    ensures { Answered (some (Take clock)) lists.old lists.new store.old store.new out.old out.new result }
{
    let mut answer = answer_buffer();
    let a = public_plans::plans::claim(store, clock, lists.plan.bytes(), &mut answer);
    lists.taken.keep_entries(out, &answer, a)
}

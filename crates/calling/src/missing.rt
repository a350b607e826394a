// Items that a connection does not have (`nfd`): read from the line, the call carried out, its keys as text.
ghost use Rattle.std.specs.Prelude.{◌≡◌, ◌+◌, ◌≤◌, length};
ghost use Rattle.machine.specs.Call.{On};
ghost use Rattle.lent_lists.specs.Items.{items_in};
ghost use Rattle.machine.specs.Fields.{rest};
ghost use Rattle.reading.specs.Lists.{item_list_call};
ghost use Rattle.asking.specs.Calls.{missing_buffer, missing_ask};
ghost use Rattle.reading.specs.Given.{values_of};
ghost use Rattle.printing.specs.Given.{line_room, answer_room, Carried};
ghost use Rattle.printing.specs.Answers.{Keeping};

use asking::calls::MOST_PLACES;
use inventory::items::ITEMS;
use machine::limits::MAX_PARENTS;
use printing::keys::listing;
use printing::numbers::unreadable;
use reading::forms::Values;

// Bytes of the longest answer: a key for each item that a line has room for, and for each parent of each package.
const ANSWER: usize = (ITEMS + MOST_PLACES as usize * MAX_PARENTS) * lent_lists::KEY;

// (By itself, as `printing::buffers` are: the contract names the value.)
fn missing_buffer() -> [u8; ANSWER]
    ensures { result ≡ missing_buffer }
{
    [0u8; ANSWER]
}

fn carry_out(store: &mut [u8], out: &mut [u8], v: Values, items: &[u8]) -> usize
    requires { answer_room ≤ length out.old }
    ensures { Carried (On (missing_ask (values_of v) (items_in items.now))) store.old store.new out.old out.new result }
{
    let mut answer = missing_buffer();
    let a = public_plans::wrappers::transaction_not_found(
        store,
        v.connection,
        items,
        v.clock,
        &mut answer,
    );
    listing(out, &answer, a)
}

// The step on a line whose items stand behind the comma at index e.
pub fn answer_missing(store: &mut [u8], line: &[u8], out: &mut [u8], v: Values, e: usize) -> usize
    requires { (answer_room ≤ length out.old) × (length line.now ≤ line_room) }
    ensures { Keeping (item_list_call (missing_ask (values_of v)) (rest line.now (e + 1))) store.old store.new out.old out.new result }
{
    let mut buffer = inventory::items::item_buffer();
    let Some(items) = inventory::items::read_list(line, e, &mut buffer) else {
        return unreadable(out);
    };
    carry_out(store, out, v, items)
}

// A batch of announcements (`inv`): its items and priorities read from the line, the call carried out, its reply as text.
ghost use Rattle.std.specs.Prelude.{◌+◌, ◌≤◌, length};
ghost use Rattle.machine.specs.Fields.{rest};
ghost use Rattle.reading.specs.Lists.{offers_call};
ghost use Rattle.asking.specs.Calls.{inventory_ask};
ghost use Rattle.reading.specs.Given.{values_of};
ghost use Rattle.printing.specs.Given.{line_room, answer_room};
ghost use Rattle.printing.specs.Answers.{Keeping};

use printing::numbers::{number, unreadable};
use reading::forms::Values;

// The step on a line whose offers stand behind the comma at index e.
pub fn answer_offers(store: &mut [u8], line: &[u8], out: &mut [u8], v: Values, e: usize) -> usize
    requires { (answer_room ≤ length out.old) × (length line.now ≤ line_room) }
    ensures { Keeping (offers_call (inventory_ask (values_of v)) (rest line.now (e + 1))) store.old store.new out.old out.new result }
{
    let mut items = inventory::offers::item_buffer();
    let mut priorities = inventory::offers::priority_buffer();
    let Some(offers) = inventory::offers::read_list(line, e, &mut items, &mut priorities) else {
        return unreadable(out);
    };
    let a = public_plans::wrappers::announce_transactions(
        store,
        v.connection,
        v.clock,
        v.preferred,
        v.source,
        offers.items,
        offers.priorities,
    );
    number(out, a)
}

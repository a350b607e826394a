// A list of items with their priorities: 40 bytes an item, 8 a priority.
ghost use Rattle.std.specs.Prelude.{◌≡◌, ◌≤◌, ◌<◌, length};
ghost use Rattle.regions.specs.Rows.{quad_number};
ghost use Rattle.reading.specs.Lists.{offer_then, offers_call};
ghost use Rattle.reading.specs.Given.{longest_line, ListRead};
ghost use Rattle.inventory.specs.Given.{most_offers, item_room, priority_room, offers_of, Front, OfferPut, OffersGiven};

use crate::items::put_item;
use crate::numbers::NUMBER;
use lent_lists::ITEM;
use lines::read::Named;
use reading::fields::{item_at, number_at};

// The most offers that a line of 65,536 bytes can hold: each takes two commas, a letter and two digits or more.
const OFFERS: usize = 13_107;

const ITEMS: usize = OFFERS * ITEM;

const PRIORITIES: usize = OFFERS * NUMBER;

pub fn item_buffer() -> [u8; ITEMS]
    ensures { length result ≡ item_room }
{
    [0u8; ITEMS]
}

pub fn priority_buffer() -> [u8; PRIORITIES]
    ensures { length result ≡ priority_room }
{
    [0u8; PRIORITIES]
}

// The i-th item and its priority.
fn put_offer(
    items: &mut [u8],
    priorities: &mut [u8],
    i: usize,
    item: Named<ident::ItemKind>,
    priority: u64,
)
    requires { (i < most_offers) × (item_room ≤ length items.old) × (priority_room ≤ length priorities.old) }
    ensures { OfferPut items.old items.new priorities.old priorities.new i item.kind (quad_number item.hash) priority }
{
    put_item(items, i, item);
    words::put(priorities, i, priority);
}

// The n offers whose fields stand behind the comma at index e, and where the last ends. No Element: an offer goes into two buffers.
fn read_offers(
    line: &[u8],
    e: usize,
    n: usize,
    items: &mut [u8],
    priorities: &mut [u8],
) -> Option<usize>
    requires { (n ≤ most_offers) × (item_room ≤ length items.old) × (priority_room ≤ length priorities.old) }
    ensures { ListRead offer_then line.now e n (offers_of n items.new priorities.new) result }
{
    let mut to = e;
    for i in 0..n {
        let item = item_at(line, to)?;
        let priority = number_at(line, item.end)?;
        put_offer(items, priorities, i, item.value, priority.value);
        to = priority.end;
    }
    Some(to)
}

// The list behind the comma at index e, the line's last fields: how many offers the fronts of both hold.
pub fn read_front(line: &[u8], e: usize, items: &mut [u8], priorities: &mut [u8]) -> Option<usize>
    requires { (length line.now ≤ longest_line) × (item_room ≤ length items.old) × (priority_room ≤ length priorities.old) }
    ensures { Front offers_call line.now e most_offers (λ n. offers_of n items.new priorities.new) result }
{
    let count = number_at(line, e)?;
    if (OFFERS as u64) < count.value {
        return None;
    }
    let n = count.value as usize;
    let end = read_offers(line, count.end, n, items, priorities)?;
    if end < line.len() {
        return None;
    }
    Some(n)
}

// What an offers' list is read into: its items and its priorities.
#[derive(Clone, Copy)]
pub struct Offers<'a> {
    pub items: &'a [u8],
    pub priorities: &'a [u8],
}

// The same list: its bytes, of those lent.
pub fn read_list<'a>(
    line: &[u8],
    e: usize,
    items: &'a mut [u8],
    priorities: &'a mut [u8],
) -> Option<Offers<'a>>
    requires { (length line.now ≤ longest_line) × (item_room ≤ length items.old) × (priority_room ≤ length priorities.old) }
    ensures { OffersGiven line.now e result }
{
    let n = read_front(line, e, items, priorities)?;
    Some(Offers {
        items: &items[..n * ITEM],
        priorities: &priorities[..n * NUMBER],
    })
}

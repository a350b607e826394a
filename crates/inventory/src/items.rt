// A list of items, 40 bytes each: a word for the type, then the hash.
ghost use Rattle.std.specs.Prelude.{◌+◌, ◌*◌, ◌≤◌, ◌≡◌, length};
ghost use Rattle.ident.specs.Number.{Item};
ghost use Rattle.regions.specs.Rows.{quad_number};
ghost use Rattle.lent_lists.specs.Items.{item_bytes, item_in};
ghost use Rattle.machine.specs.Fields.{item_of, taking};
ghost use Rattle.reading.specs.Lists.{item_list_call};
ghost use Rattle.reading.specs.Given.{longest_line};
ghost use Rattle.inventory.specs.Given.{most_listed, listed_room, items_of, Front, ItemPut, ItemsGiven};

use lent_lists::ITEM;
use lines::read::Named;
use reading::fields::item_at;
use reading::list::{self, Element};

// The most items that a line of 65,536 bytes can hold: each takes a comma, a letter and a digit or more.
pub const ITEMS: usize = 21_845;

const STORED: usize = ITEMS * ITEM;

pub fn item_buffer() -> [u8; STORED]
    ensures { length result ≡ listed_room }
{
    [0u8; STORED]
}

// The i-th item, as `lent_lists::item_at` reads it. (None is put there but from a line's list, so that it stands here and its reader there.)
pub fn put_item(items: &mut [u8], i: usize, item: Named<ident::ItemKind>)
    requires { item_bytes * i + item_bytes ≤ length items.old }
    ensures { ItemPut items.old items.new i item.kind (quad_number item.hash) }
{
    let t = u64::from(u32::from(item.kind));
    let h = ident::Hash::from(item.hash);
    lent_lists::put_record(items, i * lent_lists::RECORD, t, h);
}

// An item of a list.
struct ListedItem;

impl Element for ListedItem {
    ghost Value = { Item };

    ghost reads = { taking item_of };

    ghost SIZE = { item_bytes };

    const SIZE: usize = ITEM;

    ghost held = { item_in };

    // (The step of `ListedKey`, over another reader and another writer: three lines, which a function of closures would only hand on.)
    fn take(line: &[u8], e: usize, i: usize, items: &mut [u8]) -> Option<usize> {
        let item = item_at(line, e)?;
        put_item(items, i, item.value);
        Some(item.end)
    }
}

// The list behind the comma at index e, the line's last fields: how many items the front of the bytes holds.
pub fn read_front(line: &[u8], e: usize, items: &mut [u8]) -> Option<usize>
    requires { (length line.now ≤ longest_line) × (listed_room ≤ length items.old) }
    ensures { Front item_list_call line.now e most_listed (λ n. items_of n items.new) result }
{
    list::read_front::<ListedItem>(line, e, ITEMS, items)
}

// The same list: its bytes, of those lent.
pub fn read_list<'a>(line: &[u8], e: usize, items: &'a mut [u8]) -> Option<&'a [u8]>
    requires { (length line.now ≤ longest_line) × (listed_room ≤ length items.old) }
    ensures { ItemsGiven line.now e result }
{
    list::read_list::<ListedItem>(line, e, ITEMS, items)
}

// A list of keys, 40 bytes each: a word that is 0 for Txid and 1 for Wtxid, then the hash.
ghost use Rattle.std.specs.Prelude.{◌+◌, ◌*◌, ◌≤◌, ◌≡◌, length};
ghost use Rattle.ident.specs.Number.{Key};
ghost use Rattle.lines.specs.Values.{named_key};
ghost use Rattle.machine.specs.Call.{key_bytes};
ghost use Rattle.lent_lists.specs.Lists.{key_in, keys_in};
ghost use Rattle.machine.specs.Fields.{key_of, taking};
ghost use Rattle.reading.specs.Lists.{key_list_call};
ghost use Rattle.reading.specs.Given.{longest_line, Stored};
ghost use Rattle.inventory.specs.Given.{most_listed, listed_room, Front, KeysGiven};

use lent_lists::KEY;
use lines::read::Named;
use reading::fields::key_at;
use reading::list::{self, Element};

// The most keys that a line of 65,536 bytes can hold: each takes a comma, a letter and a digit or more.
const KEYS: usize = 21_845;

const STORED: usize = KEYS * KEY;

// (As `items::item_buffer`, by chance of the sizes: a key and an item have 40 bytes each.)
pub fn key_buffer() -> [u8; STORED]
    ensures { length result ≡ listed_room }
{
    [0u8; STORED]
}

// The i-th key.
fn put_key(keys: &mut [u8], i: usize, key: Named<ident::Kind>)
    requires { key_bytes * i + key_bytes ≤ length keys.old }
    ensures { Stored key_bytes key_in keys.old keys.new i (named_key key) }
{
    lent_lists::put_key(keys, i, ident::Key::from(key));
}

// A key of a list.
struct ListedKey;

impl Element for ListedKey {
    ghost Value = { Key };

    ghost reads = { taking key_of };

    ghost SIZE = { key_bytes };

    const SIZE: usize = KEY;

    ghost held = { key_in };

    fn take(line: &[u8], e: usize, i: usize, keys: &mut [u8]) -> Option<usize> {
        let key = key_at(line, e)?;
        put_key(keys, i, key.value);
        Some(key.end)
    }
}

// The list behind the comma at index e, the line's last fields: how many keys the front of the bytes holds.
pub fn read_front(line: &[u8], e: usize, keys: &mut [u8]) -> Option<usize>
    requires { (length line.now ≤ longest_line) × (listed_room ≤ length keys.old) }
    ensures { Front key_list_call line.now e most_listed (λ n. keys_in n keys.new) result }
{
    list::read_front::<ListedKey>(line, e, KEYS, keys)
}

// The same list: its bytes, of those lent.
pub fn read_list<'a>(line: &[u8], e: usize, keys: &'a mut [u8]) -> Option<&'a [u8]>
    requires { (length line.now ≤ longest_line) × (listed_room ≤ length keys.old) }
    ensures { KeysGiven line.now e result }
{
    list::read_list::<ListedKey>(line, e, KEYS, keys)
}

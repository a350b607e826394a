// Lists of hashes, read into bytes that are lent: 32 bytes each.
ghost use Rattle.std.specs.Prelude.{ℕ, ◌≡◌, ◌≤◌, length};
ghost use Rattle.ident.specs.Words.{hash_bytes};
ghost use Rattle.words.specs.Words.{number};
ghost use Rattle.machine.specs.Fields.{hash_of, taking};
ghost use Rattle.reading.specs.Given.{longest_line, stored_bytes, HashesFront, HashesGiven};

use crate::fields::hash_at;
use crate::list::{self, Element};
use ident::HASH_BYTES;

// The most hashes that a line of 65,536 bytes can hold: each takes a comma and a digit or more.
const HASHES: usize = 32_768;

const STORED: usize = HASHES * HASH_BYTES;

// (This buffer, and those of inventory, are functions of one shape: each contract gives its room by the name that its read_list asks for, where one over the size would have the
// callers name it.)
pub fn hash_buffer() -> [u8; STORED]
    ensures { length result ≡ stored_bytes }
{
    [0u8; STORED]
}

// A hash of a list.
pub struct ListedHash;

impl Element for ListedHash {
    ghost Value = { ℕ };

    ghost reads = { taking hash_of };

    ghost SIZE = { hash_bytes };

    const SIZE: usize = HASH_BYTES;

    ghost held = { number 256 };

    fn take(line: &[u8], e: usize, i: usize, hashes: &mut [u8]) -> Option<usize> {
        let hash = hash_at(line, e)?;
        ident::put_hash(hashes, i * HASH_BYTES, ident::Hash::from(hash.value));
        Some(hash.end)
    }
}

// The list behind the comma at index e, the line's last fields: how many hashes the front of the bytes holds.
pub fn read_front(line: &[u8], e: usize, hashes: &mut [u8]) -> Option<usize>
    requires { (length line.now ≤ longest_line) × (stored_bytes ≤ length hashes.old) }
    ensures { HashesFront line.now e hashes.new result }
{
    list::read_front::<ListedHash>(line, e, HASHES, hashes)
}

// The same list: its bytes, of those lent.
pub fn read_list<'a>(line: &[u8], e: usize, hashes: &'a mut [u8]) -> Option<&'a [u8]>
    requires { (length line.now ≤ longest_line) × (stored_bytes ≤ length hashes.old) }
    ensures { HashesGiven line.now e result }
{
    list::read_list::<ListedHash>(line, e, HASHES, hashes)
}

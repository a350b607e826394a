// Lists of hashes behind their length, stored in lent bytes: at most 100, 32 bytes each.
ghost use Rattle.std.specs.Prelude.{◌+◌, ◌≤◌, length};
ghost use Rattle.machine.specs.Fields.{rest};
ghost use Rattle.machine.specs.Listing.{short, list_then};
ghost use Rattle.listed_lines.specs.Given.{Took, longest_list, list_room, list_at};

use machine::limits::MAX_PARENTS;
use reading::fields::{Parsed, number_at};
use reading::hashes::ListedHash;
use reading::list::read_all;

// The list behind the comma at index e: its length, at least `least` and at most 100, and so many hashes. Answers how many.
pub fn list_at(line: &[u8], e: usize, least: u64, hashes: &mut [u8]) -> Option<Parsed<usize>>
    requires { list_room ≤ length hashes.old }
    ensures { Took (list_then short least longest_list) line.now (rest line.now (e + 1)) (list_at hashes.new result) }
{
    let count = number_at(line, e)?;
    if count.value < least || (MAX_PARENTS as u64) < count.value {
        return None;
    }
    let value = count.value as usize;
    let end = read_all::<ListedHash>(line, count.end, value, hashes)?;
    Some(Parsed { value, end })
}

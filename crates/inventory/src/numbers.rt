// A list of numbers, a word each: the witness connections of `send`.
ghost use Rattle.std.specs.Prelude.{ℕ, ◌≤◌, ◌≡◌, length};
ghost use Rattle.words.specs.Words.{number};
ghost use Rattle.machine.specs.Fields.{number_of, taking};
ghost use Rattle.reading.specs.Given.{longest_line};
ghost use Rattle.inventory.specs.Given.{number_room, number_bytes, NumbersFront, NumbersGiven};

use reading::fields::number_at;
use reading::list::{self, Element};

// The most numbers that a line of 65,536 bytes can hold: each takes a comma and a digit or more.
const NUMBERS: usize = 32_768;

pub const NUMBER: usize = 8;

const STORED: usize = NUMBERS * NUMBER;

pub fn number_buffer() -> [u8; STORED]
    ensures { length result ≡ number_room }
{
    [0u8; STORED]
}

// A number of a list.
struct ListedNumber;

impl Element for ListedNumber {
    ghost Value = { ℕ };

    ghost reads = { taking number_of };

    ghost SIZE = { number_bytes };

    const SIZE: usize = NUMBER;

    ghost held = { number 256 };

    fn take(line: &[u8], e: usize, i: usize, numbers: &mut [u8]) -> Option<usize> {
        let number = number_at(line, e)?;
        words::put(numbers, i, number.value);
        Some(number.end)
    }
}

// The list behind the comma at index e, the line's last fields: how many numbers the front of the bytes holds.
pub fn read_front(line: &[u8], e: usize, numbers: &mut [u8]) -> Option<usize>
    requires { (length line.now ≤ longest_line) × (number_room ≤ length numbers.old) }
    ensures { NumbersFront line.now e numbers.new result }
{
    list::read_front::<ListedNumber>(line, e, NUMBERS, numbers)
}

// The same list: its bytes, of those lent.
pub fn read_list<'a>(line: &[u8], e: usize, numbers: &'a mut [u8]) -> Option<&'a [u8]>
    requires { (length line.now ≤ longest_line) × (number_room ≤ length numbers.old) }
    ensures { NumbersGiven line.now e result }
{
    list::read_list::<ListedNumber>(line, e, NUMBERS, numbers)
}

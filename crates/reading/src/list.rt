// A list of a line, read element by element into bytes that are lent.
ghost use Rattle.std.specs.Prelude.{ℕ, List, ◌+◌, ◌*◌, ◌≤◌, length};
ghost use Rattle.words.specs.Words.{recs};
ghost use Rattle.reading.specs.Line.{Reader};
ghost use Rattle.reading.specs.Given.{Taken, ListRead, FrontList, WholeList};

use crate::fields::number_at;

// What a list has.
pub trait Element {
    ghost Value: { Type 0 };

    // the fields that it stands in
    ghost reads: { Reader Value };

    // how many bytes hold it
    ghost SIZE: { ℕ };

    const SIZE: usize;

    // what they hold
    ghost held: { List ℕ → Value };

    // Puts the element behind the comma at index e into the buffer, as the i-th: where its last field ends.
    fn take(line: &[u8], e: usize, i: usize, buffer: &mut [u8]) -> Option<usize>
        requires { SIZE * i + SIZE ≤ length buffer.old }
        ensures { Taken reads SIZE held line.now e i buffer.old buffer.new result };
}

// The n elements whose fields stand behind the comma at index e, and where the last ends.
pub fn read_all<E: Element>(line: &[u8], e: usize, n: usize, buffer: &mut [u8]) -> Option<usize>
    requires { E.SIZE * n ≤ length buffer.old }
    ensures { ListRead E.reads line.now e n (recs E.SIZE E.held n buffer.new) result }
{
    let mut to = e;
    for i in 0..n {
        to = E::take(line, to, i, buffer)?;
    }
    Some(to)
}

// The list behind the comma at index e, the line's last fields: how many elements the front of the buffer holds. (For who goes on with the buffer: no contract of `read_list` can
// say what it holds once the bytes that are given of it are let go.)
pub fn read_front<E: Element>(
    line: &[u8],
    e: usize,
    most: usize,
    buffer: &mut [u8],
) -> Option<usize>
    requires { E.SIZE * most ≤ length buffer.old }
    ensures { FrontList E.reads E.SIZE E.held line.now e most buffer.new result }
{
    let count = number_at(line, e)?;
    if (most as u64) < count.value {
        return None;
    }
    let n = count.value as usize;
    let end = read_all::<E>(line, count.end, n, buffer)?;
    if end < line.len() {
        return None;
    }
    Some(n)
}

// The same list: the bytes that hold it, of those lent.
pub fn read_list<'a, E: Element>(
    line: &[u8],
    e: usize,
    most: usize,
    buffer: &'a mut [u8],
) -> Option<&'a [u8]>
    requires { E.SIZE * most ≤ length buffer.old }
    ensures { WholeList E.reads E.SIZE E.held line.now e most result }
{
    let n = read_front::<E>(line, e, most, buffer)?;
    Some(&buffer[..n * E::SIZE])
}

// A line's fields one after the other, each found behind the comma that ends the one before it.
ghost use Rattle.std.specs.Prelude.{◌≡◌, ◌+◌, ◌<◌, ◌≤◌, length, drop, MatchOption};
ghost use Rattle.std.specs.Fn.{FnOnceReturnsAt};
ghost use Rattle.machine.specs.Fields.{before, number_of, bool_of, hash_of, key_of, item_of};
ghost use Rattle.reading.specs.Given.{FieldParsed, FieldRead, number_at, bool_at, hash_at, key_at, item_at};

use lines::read::{Named, field_end, seek};

// What a part of a line says, and the index where that part ends.
#[derive(Clone, Copy)]
pub struct Parsed<T> {
    pub value: T,
    pub end: usize,
}

impl<T> Parsed<T> {
    // As an Option's: the value goes over, the end stays.
    pub fn map<U, F: FnOnce(T) -> U>(self, f: F) -> Parsed<U>
        requires { F.pre f self.value }
        ensures value { F.post f self.value result.value }
        ensures end { result.end ≡ self.end }
    {
        Parsed {
            value: f(self.value),
            end: self.end,
        }
    }

    // The value, if what says it ends where the line does.
    pub fn last(self, line: &[u8]) -> Option<T>
    where
        T: Drop,
        ensures { MatchOption result (self.end < length line.now) (λ v. (length line.now ≤ self.end) × (v ≡ self.value)) }
    {
        if self.end < line.len() {
            return None;
        }
        Some(self.value)
    }
}

// The field between the comma at index e and the index where it ends, as `parse` reads it.
fn field_to<T, F: FnOnce(&[u8]) -> Option<T>>(
    line: &[u8],
    e: usize,
    end: usize,
    parse: F,
) -> Option<Parsed<T>>
    requires callable { F.IsAlwaysCallable parse }
    requires ends { (e < length line.now) × (end ≡ e + 1 + length (before 44 (drop (e + 1) line.now))) }
    ensures { FieldParsed (FnOnceReturnsAt F.FnOnce parse) line.now e result }
{
    let value = parse(&line[e + 1..end])?;
    Some(Parsed { value, end })
}

// The field behind the comma at index e; a line that ends there has none.
fn field_at<T, F: FnOnce(&[u8]) -> Option<T>>(line: &[u8], e: usize, parse: F) -> Option<Parsed<T>>
    requires { F.IsAlwaysCallable parse }
    ensures { FieldParsed (FnOnceReturnsAt F.FnOnce parse) line.now e result }
{
    if line.len() <= e {
        return None;
    }
    let end = field_end(line, e + 1);
    field_to(line, e, end, parse)
}

// (A function for each value, here and below: its contract names the value, and callers name no parser.)
// (A number's end is near, and is sought byte by byte. Inlined, since its answer would go through memory: lists have thousands of numbers.)
#[inline(always)]
pub fn number_at(line: &[u8], e: usize) -> Option<Parsed<u64>>
    ensures { FieldRead number_of line.now e (number_at result) }
{
    if line.len() <= e {
        return None;
    }
    let end = seek(line, e + 1, b',');
    field_to(line, e, end, lines::read::number)
}

pub fn bool_at(line: &[u8], e: usize) -> Option<Parsed<bool>>
    ensures { FieldRead bool_of line.now e (bool_at result) }
{
    field_at(line, e, lines::read::boolean)
}

pub fn hash_at(line: &[u8], e: usize) -> Option<Parsed<regions::Quad>>
    ensures { FieldRead hash_of line.now e (hash_at result) }
{
    field_at(line, e, lines::read::hash)
}

pub fn key_at(line: &[u8], e: usize) -> Option<Parsed<Named<ident::Kind>>>
    ensures { FieldRead key_of line.now e (key_at result) }
{
    field_at(line, e, lines::read::key)
}

pub fn item_at(line: &[u8], e: usize) -> Option<Parsed<Named<ident::ItemKind>>>
    ensures { FieldRead item_of line.now e (item_at result) }
{
    field_at(line, e, lines::read::item)
}

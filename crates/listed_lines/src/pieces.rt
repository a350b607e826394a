// Fields that event lines do not have: a line's first field, and what may be missing.
ghost use Rattle.std.specs.Prelude.{◌≡◌, ◌+◌};
ghost use Rattle.std.specs.Fn.{FnOnceReturnsAt};
ghost use Rattle.machine.specs.Fields.{number_of, key_of, fields, rest, taking};
ghost use Rattle.machine.specs.Listing.{short, key_in, maybe_in};
ghost use Rattle.reading.specs.Given.{number_at, key_at};
ghost use Rattle.listed_lines.specs.Given.{FirstParsed, FnOnceReturnsIn, MaybeParsed, Took, NoneAt, maybe_number_at, maybe_key_at};

use lines::read::{Named, field_end};
use reading::fields::{Parsed, key_at, number_at};

// The first field, as `parse` reads it. (No `field_at` of crates/reading: that one begins behind a comma.)
fn first_field<T, F: FnOnce(&[u8]) -> Option<T>>(line: &[u8], parse: F) -> Option<Parsed<T>>
    requires { F.IsAlwaysCallable parse }
    ensures { FirstParsed (FnOnceReturnsAt F.FnOnce parse) line.now result }
{
    let end = field_end(line, 0);
    let value = parse(&line[..end])?;
    Some(Parsed { value, end })
}

pub fn first_number(line: &[u8]) -> Option<Parsed<u64>>
    ensures { Took (taking number_of) line.now (fields line.now) (number_at result) }
{
    first_field(line, lines::read::number)
}

pub fn first_key(line: &[u8]) -> Option<Parsed<Named<ident::Kind>>>
    ensures { Took (taking (key_in short)) line.now (fields line.now) (key_at result) }
{
    first_field(line, lines::read::key)
}

// Where the field behind the comma at index e ends, if it is `none`. (By hand: `field_at` of crates/reading answers what a parser gives, and `none` gives nothing.)
pub fn none_at(line: &[u8], e: usize) -> Option<usize>
    ensures { NoneAt line.now e result }
{
    if line.len() <= e {
        return None;
    }
    let from = e + 1;
    let to = field_end(line, from);
    if !lines::read::same(&line[from..to], b"none") {
        return None;
    }
    Some(to)
}

// What `there` reads behind the comma at index e, unless `none` stands there.
pub fn maybe_at<T, F: FnOnce(&[u8], usize) -> Option<Parsed<T>>>(
    line: &[u8],
    e: usize,
    there: F,
) -> Option<Parsed<Option<T>>>
    requires { F.IsAlwaysCallable there }
    ensures { MaybeParsed (FnOnceReturnsIn F.FnOnce there line.now e) line.now e result }
{
    if let Some(end) = none_at(line, e) {
        return Some(Parsed { value: None, end });
    }
    Some(there(line, e)?.map(Some))
}

pub fn maybe_number_at(line: &[u8], e: usize) -> Option<Parsed<Option<u64>>>
    ensures { Took (taking (maybe_in number_of)) line.now (rest line.now (e + 1)) (maybe_number_at result) }
{
    maybe_at(line, e, number_at)
}

pub fn maybe_key_at(line: &[u8], e: usize) -> Option<Parsed<Option<Named<ident::Kind>>>>
    ensures { Took (taking (maybe_in (key_in short))) line.now (rest line.now (e + 1)) (maybe_key_at result) }
{
    maybe_at(line, e, key_at)
}

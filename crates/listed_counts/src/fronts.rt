// The front of a line: what it counts for. Of a text whose lines are all of a form no more needs to be read, and lists of hashes are passed over.
ghost use Rattle.std.specs.Prelude.{◌≡◌, ◌≤◌, IfSome, IsNone, length};
ghost use Rattle.machine.specs.Fields.{fields};
ghost use Rattle.machine.specs.Listing.{short, line_of};
ghost use Rattle.listed_counts.specs.Fronts.{OwnerIn, FrontIn, FrontRead};

use lines::read::{field_end, find};
use listed_lines::cursor::Lines;
use listed_lines::line::starts_request;
use listed_lines::parts::owner_at;
use listed_lines::pieces::first_number;

// The connection of a candidate's line; a request's owner, if it has one.
#[derive(Clone, Copy)]
pub enum Front {
    Nobody,
    Owner(u64),
    Connection(u64),
}

// The owner of a request's line.
fn owner_in(line: &[u8]) -> Option<u64>
    ensures { OwnerIn line.now result }
{
    let key = field_end(line, 0);
    let owner = owner_at(line, key)?.value?;
    Some(owner.connection)
}

// Of a line without its line feed.
fn front_in(line: &[u8]) -> Front
    ensures { FrontIn (line_of short (fields line.now)) result }
{
    if starts_request(line) {
        return owner_in(line).map_or(Front::Nobody, Front::Owner);
    }
    let Some(connection) = first_number(line) else {
        return Front::Nobody;
    };
    Front::Connection(connection.value)
}

// Of the line that comes next, which is passed.
pub fn next_front(lines: &mut Lines) -> Option<Front>
    ensures same { lines.new.text ≡ lines.old.text }
    ensures front { IfSome result (λ f. FrontRead lines.old.text.now lines.old.at f lines.new.at) }
    ensures none { IsNone result → length lines.old.text.now ≤ lines.old.at }
{
    if lines.is_empty() {
        return None;
    }
    let end = find(lines.text, lines.at, b'\n');
    if end == lines.text.len() {
        lines.at = end;
        return Some(Front::Nobody);
    }
    let front = front_in(&lines.text[lines.at..end]);
    lines.at = end + 1;
    Some(front)
}

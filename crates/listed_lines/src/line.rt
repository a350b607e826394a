// A line of one of the three forms.
ghost use Rattle.std.specs.Prelude.{◌≡◌, ◌<◌, length};
ghost use Rattle.machine.specs.Fields.{fields};
ghost use Rattle.machine.specs.Listing.{short, head_of, request_of, candidate_of, line_of};
ghost use Rattle.listed_lines.specs.Starts.{keyed};
ghost use Rattle.listed_lines.specs.Given.{head_line, request_line, candidate_line, line_in, LineRead};

use crate::cursor::Lists;
use crate::hash_lists::list_at;
use crate::parts::{Owner, Package, owner_at, package_at};
use crate::pieces::{first_key, first_number, maybe_key_at, maybe_number_at};
use lines::read::Named;
use reading::fields::{Parsed, bool_at, item_at, number_at};

// The first line: L, Q, next poll and cursors.
#[derive(Clone, Copy)]
pub struct Head {
    pub limit: u64,
    pub places: u64,
    pub poll: Option<u64>,
    pub known: Option<Named<ident::Kind>>,
    pub ready: Option<Named<ident::Kind>>,
}

// A request without its candidates; of its parents how many. (`info` and `mark` are bits of the line itself: none says whether another field has a value.)
#[derive(Clone, Copy)]
pub struct Request {
    pub key: regions::Key,
    pub owner: Option<Owner>,
    pub info: bool,
    pub packed: Option<Package>,
    pub parents: usize,
    pub mark: bool,
}

// A candidate's line; `preferred` is one of its fields, with no value behind it.
// (Kind and hash one by one, as the tests of a candidate take them. `requests::Candidate` is of a store, as `Owner` of package_stages is.)
#[derive(Clone, Copy)]
pub struct Candidate {
    pub connection: u64,
    pub kind: ident::ItemKind,
    pub hash: regions::Quad,
    pub ready: u64,
    pub preferred: bool,
    pub priority: u64,
}

// A line of any form. `Not` is one of no form: no line at all is the None of `Lines::next`.
#[derive(Clone, Copy)]
pub enum Line {
    Not,
    Head(Head),
    Request(Request),
    Candidate(Candidate),
}

// ---- a line as one of each form, if it is one.

fn read_head(line: &[u8]) -> Option<Head>
    ensures { head_of short (fields line.now) ≡ head_line result }
{
    let limit = first_number(line)?;
    let places = number_at(line, limit.end)?;
    let poll = maybe_number_at(line, places.end)?;
    let known = maybe_key_at(line, poll.end)?;
    let ready = maybe_key_at(line, known.end)?.last(line)?;
    Some(Head {
        limit: limit.value,
        places: places.value,
        poll: poll.value,
        known: known.value,
        ready,
    })
}

fn read_request(line: &[u8], lists: &mut Lists) -> Option<Request>
    ensures { request_of short (fields line.now) ≡ request_line lists.new.wtxids.now lists.new.parents.now result }
{
    let key = first_key(line)?;
    let owner = owner_at(line, key.end)?;
    let info = bool_at(line, owner.end)?;
    let packed = package_at(line, info.end, lists.wtxids)?;
    let list = list_at(line, packed.end, 0, lists.parents)?;
    let mark = bool_at(line, list.end)?.last(line)?;
    Some(Request {
        key: regions::Key::from(key.value),
        owner: owner.value,
        info: info.value,
        packed: packed.value,
        parents: list.value,
        mark,
    })
}

fn read_candidate(line: &[u8]) -> Option<Candidate>
    ensures { candidate_of short (fields line.now) ≡ candidate_line result }
{
    let connection = first_number(line)?;
    let item = item_at(line, connection.end)?;
    let ready = number_at(line, item.end)?;
    let preferred = bool_at(line, ready.end)?;
    let priority = number_at(line, preferred.end)?.last(line)?;
    Some(Candidate {
        connection: connection.value,
        kind: item.value.kind,
        hash: item.value.hash,
        ready: ready.value,
        preferred: preferred.value,
        priority,
    })
}

// Whether a request's line stands here: a key's letter begins it, and no other line.
pub fn starts_request(text: &[u8]) -> bool
    ensures { result ≡ keyed text.now }
{
    matches!(text.first(), Some(b't' | b'w'))
}

// A line of bytes without its line feed. Where it is a request's, its wtxids and parents stand in the lent bytes.
fn line_in(line: &[u8], lists: &mut Lists) -> Line
    ensures { line_of short (fields line.now) ≡ line_in lists.new.wtxids.now lists.new.parents.now result }
{
    if starts_request(line) {
        return read_request(line, lists).map_or(Line::Not, Line::Request);
    }
    if let Some(c) = read_candidate(line) {
        return Line::Candidate(c);
    }
    read_head(line).map_or(Line::Not, Line::Head)
}

// The line that starts at an index; it ends behind its line feed.
pub fn line_at(text: &[u8], at: usize, lists: &mut Lists) -> Parsed<Line>
    requires { at < length text.now }
    ensures { LineRead text.now at lists.new.wtxids.now lists.new.parents.now result }
{
    let end = lines::read::find(text, at, b'\n');
    if end == text.len() {
        return Parsed {
            value: Line::Not,
            end,
        };
    }
    Parsed {
        value: line_in(&text[at..end], lists),
        end: end + 1,
    }
}

// A hash under both kinds: its Txid request and its Wtxid request together. Two walks go through the listing, one among the Txid requests and one among the
// Wtxid requests; keys ascend, so each request is met once by each. No walk is a `for`: an `Iterator` has no lists to lend to `Lines::next`, and both walks go on by
// more than a line at a time.
#![tactic(auto)]

ghost use Rattle.std.specs.Prelude.{◌≡◌, ◌<◌, ◌≤◌, length, drop};
ghost use Rattle.regions.specs.Rows.{quad_number};
ghost use Rattle.listed_pairs.specs.Given.{starts_wtxid, LinePassed, FirstWtxid, Skips, Below, PassesBelow, SideBySide, Compared, PairsFit};

use lines::read::find;
use listed_lines::cursor::{Lines, ListBytes};
use listed_lines::line::Request;
use listed_requests::candidates::{Room, gather};
use listed_requests::distinct::all_distinct;
use listed_requests::forms::next_request;
use listed_requests::lawful::is_wtxid;
use machine::limits::MAX_ALTERNATES;

// Of two requests: they do not fit together; no Txid request is left; the next two are to be compared.
#[derive(Clone, Copy)]
pub enum Pair {
    Unfit,
    Done,
    Next,
}

// Whether the next line is a Wtxid request's, as far as its first byte tells.
fn meets_wtxid(lines: Lines) -> bool
    ensures { result ≡ starts_wtxid (drop lines.entry.at lines.entry.text.now) }
{
    matches!(lines.text[lines.at..].first(), Some(b'w'))
}

// Passes the next line, whatever it says: of a text that lists requests its first byte tells enough.
fn pass_line(lines: &mut Lines)
    requires { lines.old.at < length lines.old.text.now }
    ensures same { lines.new.text ≡ lines.old.text }
    ensures passed { LinePassed lines.old.text.now lines.old.at lines.new.at }
{
    let end = find(lines.text, lines.at, b'\n');
    if end == lines.text.len() {
        lines.at = end;
        return;
    }
    lines.at = end + 1;
}

// The lines from that of the first Wtxid request on.
fn first_wtxid(mut lines: Lines) -> Lines
    ensures same { result.text ≡ lines.entry.text }
    ensures first { FirstWtxid lines.entry.text.now lines.entry.at result.at }
{
    while !lines.is_empty() {
        if meets_wtxid(lines) {
            return lines;
        }
        pass_line(&mut lines);
    }
    lines
}

// Passes the candidates of a request.
fn skip(lines: &mut Lines, r: Request, room: &mut Room)
    ensures same { lines.new.text ≡ lines.old.text }
    ensures skips { Skips lines.old.text.now lines.old.at lines.new.at }
{
    let _ = gather(lines, r.key, 0, room);
}

// Passes the Txid requests whose hash is below k.
fn below(lines: &mut Lines, k: regions::Quad, room: &mut Room)
    ensures same { lines.new.text ≡ lines.old.text }
    ensures below { Below lines.old.text.now lines.old.at lines.new.at (quad_number k) }
{
    let mut behind = *lines;
    while let Some(r) = next_request(&mut behind, &mut room.lists) {
        if is_wtxid(r.key.kind) {
            return;
        }
        if !regions::quad_less(r.key.hash, k) {
            return;
        }
        skip(&mut behind, r, room);
        *lines = behind;
    }
}

// The same, from the candidates of a request on. A long line of the Wtxid request with hash k is not read again for each of them.
fn pass_below(lines: &mut Lines, r: Request, k: regions::Quad, room: &mut Room)
    ensures same { lines.new.text ≡ lines.old.text }
    ensures passes { PassesBelow lines.old.text.now lines.old.at lines.new.at (quad_number k) }
{
    skip(lines, r, room);
    below(lines, k, room);
}

// Whether two requests of one hash, whose candidates come next, fit together. Passes the candidates.
fn side_by_side(
    front: &mut Lines,
    r: Request,
    back: &mut Lines,
    w: Request,
    room: &mut Room,
) -> bool
    requires { back.old.text ≡ front.old.text }
    ensures same { (front.new.text ≡ front.old.text) × (back.new.text ≡ back.old.text) }
    ensures together { SideBySide front.old.text.now front.old.at r back.old.at w result front.new.at back.new.at }
{
    let Some(a) = gather(front, r.key, 0, room) else {
        return false;
    };
    let Some(b) = gather(back, w.key, a.count, room) else {
        return false;
    };
    let once = all_distinct(&room.conns[..b.count]);
    // (`&`: both are known here, so that there is one way through.)
    once & !(r.owner.is_some() & w.owner.is_some())
}

// The requests that come next: a Txid request, unless none is left, and a Wtxid request. Passes the lesser one, and those that fit together.
fn compare(front: &mut Lines, back: &mut Lines, room: &mut Room) -> Pair
    requires { (back.old.text ≡ front.old.text) × (front.old.at < length front.old.text.now) × (back.old.at < length back.old.text.now) }
    ensures same { (front.new.text ≡ front.old.text) × (back.new.text ≡ back.old.text) }
    ensures compared { Compared front.old.text.now front.old.at back.old.at result front.new.at back.new.at }
{
    let mut first = *front;
    let Some(r) = next_request(&mut first, &mut room.lists) else {
        return Pair::Done;
    };
    if is_wtxid(r.key.kind) {
        return Pair::Done;
    }
    let mut second = *back;
    let Some(w) = next_request(&mut second, &mut room.lists) else {
        return Pair::Done;
    };
    if regions::quad_less(r.key.hash, w.key.hash) {
        pass_below(&mut first, r, w.key.hash, room);
        *front = first;
        return Pair::Next;
    }
    if regions::quad_less(w.key.hash, r.key.hash) {
        skip(&mut second, w, room);
        *back = second;
        return Pair::Next;
    }
    if !side_by_side(&mut first, r, &mut second, w, room) {
        return Pair::Unfit;
    }
    *front = first;
    *back = second;
    Pair::Next
}

// Whether the two requests of each hash that the lines list fit together, where each request fits by itself.
pub fn pairs_fit(lines: Lines) -> bool
    ensures { PairsFit lines.entry.text.now lines.entry.at result }
{
    let mut bytes = ListBytes::zeros();
    let mut conns = [0; MAX_ALTERNATES];
    let mut front = lines;
    let mut back = first_wtxid(lines);
    let mut room = Room {
        lists: bytes.lend(),
        conns: &mut conns,
    };
    while !back.is_empty() {
        if front.is_empty() {
            return true;
        }
        match compare(&mut front, &mut back, &mut room) {
            Pair::Unfit => return false,
            Pair::Done => return true,
            Pair::Next => {}
        }
    }
    true
}

// The next line as one of a form.
ghost use Rattle.std.specs.Prelude.{◌≡◌};
ghost use Rattle.listed_requests.specs.Given.{NextCandidate, NextRequest};

use listed_lines::cursor::{Lines, Lists};
use listed_lines::line::{Candidate, Line, Request};

// The candidate whose line comes next. Where none comes, no line is taken; a request's line, which may be long, is not read for it.
pub fn next_candidate(lines: &mut Lines, lists: &mut Lists) -> Option<Candidate>
    ensures same { lines.new.text ≡ lines.old.text }
    ensures next { NextCandidate lines.old.text.now lines.old.at result lines.new.at }
{
    if lines.meets_request() {
        return None;
    }
    let mut after = *lines;
    let line = after.next(lists)?;
    let Line::Candidate(c) = line else {
        return None;
    };
    *lines = after;
    Some(c)
}

// The request whose line comes next. Its wtxids and parents stand in the lent lists.
pub fn next_request(lines: &mut Lines, lists: &mut Lists) -> Option<Request>
    ensures same { lines.new.text ≡ lines.old.text }
    ensures next { NextRequest lines.old.text.now lines.old.at lists.new.wtxids.now lists.new.parents.now result lines.new.at }
{
    let line = lines.next(lists)?;
    let Line::Request(r) = line else {
        return None;
    };
    Some(r)
}

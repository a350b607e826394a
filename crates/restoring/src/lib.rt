// Restoring: the store of a sound state's listing, written from its text (document 02, request b; docs/LISTING.md is the grammar).
//
// The lines come into the store in their own order: each candidate's row and each request's place behind those that are there, so that nothing
// moves. The connections are counted at the end. As in `store`, bytes are spoken of as lists of records: `Turns`, `Shows`.
#![tactic(auto)]

ghost use Rattle.std.specs.Prelude.{length};
ghost use Rattle.machine.specs.State.{State};
ghost use Rattle.machine.specs.Sound.{Sound};
ghost use Rattle.store.specs.Image.{Shows};
ghost use Rattle.listed_form.specs.Given.{Body, requests_only};
ghost use Rattle.restoring.specs.Given.{LineRoom, TakesLine, bare, untallied, Headed, Readable, Restored};

use listed_form::Listing;
use listed_lines::cursor::{Lines, ListBytes, Lists};
use listed_lines::line::{Line, Request};

pub mod candidate_rows;
pub mod head_fields;
pub mod new_places;

// Takes one line: a request's place, if it has one, a candidate's row. Answers the last request then.
fn take_line(s: &mut [u8], last: Option<Request>, l: Line, lists: &Lists) -> Option<Request>
    requires { LineRoom s.old lists.now.wtxids.now lists.now.parents.now last l }
    ensures { TakesLine s.old s.new lists.now.wtxids.now lists.now.parents.now last l result }
{
    match l {
        Line::Not | Line::Head(_) => last,
        Line::Request(q) => {
            new_places::add_place(s, q, lists.wtxids, lists.parents);
            Some(q)
        }
        Line::Candidate(c) => {
            if let Some(r) = last {
                candidate_rows::add_candidate(s, r, c);
            }
            last
        }
    }
}

// The lines behind the first one, into a store that has its header. (No `for`: an `Iterator` has no lists to lend to `Lines::next`, and each line is taken with its own.)
fn put_lines(mut lines: Lines, s: &mut [u8])
    requires { Headed lines.text.now lines.at s.old }
    ensures { (st : State) → Sound st → Body lines.entry.text.now lines.entry.at (requests_only st.table) → Shows s.old (bare st) → Shows s.new (untallied st) }
{
    let mut bytes = ListBytes::zeros();
    let mut lists = bytes.lend();
    let mut last = None;
    while let Some(line) = lines.next(&mut lists) {
        last = take_line(s, last, line, &lists);
    }
}

// The state that a listing lists, into any bytes of its need.
pub fn write_from(l: Listing, s: &mut [u8])
    requires { Readable l.lines.text.now l.head l.lines.at (length s.old) }
    ensures { Restored l.entry.lines.text.now l.entry.head l.entry.lines.at s.new }
{
    head_fields::put_head(s, l.head);
    put_lines(l.lines, s);
    tallying::tally_rows(s);
}

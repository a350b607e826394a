// The form of a saved listing (document 02, request b; docs/LISTING.md): whether a text is one, from the text alone.
//
// It is not if a line has none of the three forms, stands where it may not, or has a key that falls: refusal 11. The contract says that it is exactly
// where the definition reads a state (`read_listing`, machine/specs/Listing), and which lines list it.
#![tactic(auto)]

ghost use Rattle.std.specs.Prelude.{◌≡◌, ltb, drop};
ghost use Rattle.ident.specs.Number.{place};
ghost use Rattle.listed_lines.specs.Given.{lines_of_text};
ghost use Rattle.listed_form.specs.Placed.{Start, meets_key, placed_from};
ghost use Rattle.listed_form.specs.Given.{key_in, met_of, met_if, Meets, FormRead};

use listed_lines::cursor::{Lines, ListBytes, Lists};
use listed_lines::line::{Head, Line};

// A listing's first line, and the lines behind it.
#[derive(Clone, Copy)]
pub struct Listing<'a> {
    pub head: Head,
    pub lines: Lines<'a>,
}

// Whether the key a comes before b: by this clause rows' order is that of the places.
pub fn comes_before(a: regions::Key, b: regions::Key) -> bool
    ensures { result ≡ ltb (place (key_in a)) (place (key_in b)) }
{
    regions::key_less(a, b)
}

// A request of this key, behind the last one: it is the last one then, if its key does not come before that one's.
fn meets_key(last: Option<regions::Key>, key: regions::Key) -> Option<regions::Key>
    ensures { met_if result ≡ meets_key (met_of last) (key_in key) }
{
    if last.is_some_and(|k| comes_before(key, k)) {
        return None;
    }
    Some(key)
}

// One line more: the key of the last request then, if the line may stand there. A candidate's may behind a request alone.
fn meets(last: Option<regions::Key>, l: Line) -> Option<regions::Key>
    ensures { Meets last l result }
{
    match l {
        Line::Not | Line::Head(_) => None,
        Line::Request(r) => meets_key(last, r.key),
        Line::Candidate(_) => last,
    }
}

// Whether the lines are placed, and no key falls. (No `for`: an `Iterator` has no lists to lend to `Lines::next`.)
fn placed(mut lines: Lines, lists: &mut Lists) -> bool
    ensures { result ≡ placed_from Start (lines_of_text (drop lines.entry.at lines.entry.text.now)) }
{
    let mut last = None;
    while let Some(line) = lines.next(lists) {
        let Some(key) = meets(last, line) else {
            return false;
        };
        last = Some(key);
    }
    true
}

// The listing that a text is; none if it is no listing.
pub fn form_of(text: &[u8]) -> Option<Listing>
    ensures { FormRead text.now result }
{
    let mut bytes = ListBytes::zeros();
    let mut lists = bytes.lend();
    let mut lines = Lines { text, at: 0 };
    let line = lines.next(&mut lists)?;
    let Line::Head(head) = line else {
        return None;
    };
    if !placed(lines, &mut lists) {
        return None;
    }
    Some(Listing { head, lines })
}

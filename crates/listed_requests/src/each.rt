// The requests of a listing one after the other: their order, each of them by itself, how many announcements and places they hold.
ghost use Rattle.std.specs.Prelude.{◌≡◌, ◌<◌, ◌≤◌, is_some, leb, length};
ghost use Rattle.ident.specs.Number.{place};
ghost use Rattle.machine.specs.Limits.{max_announcements, max_places};
ghost use Rattle.listed_form.specs.Given.{key_in};
ghost use Rattle.listed_requests.specs.Given.{lowest_of, place_for, Within, Stepped, EachFits};

use crate::candidates::Room;
use crate::forms::next_request;
use crate::lawful::judge;
use listed_form::comes_before;
use listed_lines::cursor::{Lines, ListBytes};
use listed_lines::line::Request;
use machine::limits::MAX_ALTERNATES;

// The key of the last request, if there was one; announcements and places that are held up to it.
#[derive(Clone, Copy)]
pub struct Pass {
    pub last: Option<regions::Key>,
    pub held: u64,
    pub taken: u64,
}

// Whether a key comes after the last one.
fn rises(p: Pass, key: regions::Key) -> bool
    ensures { result ≡ leb (lowest_of p) (place (key_in key)) }
{
    p.last.is_none_or(|last| comes_before(last, key))
}

// A flag or a package takes a place.
fn place_of(r: Request) -> u64
    ensures { result ≡ place_for r.info (is_some r.packed) }
{
    u64::from(r.info || r.packed.is_some())
}

// The next request: what is known behind it, if it passes.
// (limit and places go as document 01's opening has L and Q.)
fn advance(lines: &mut Lines, p: Pass, limit: u64, places: u64, room: &mut Room) -> Option<Pass>
    requires { (lines.old.at < length lines.old.text.now) × Within limit places p }
    ensures same { lines.new.text ≡ lines.old.text }
    ensures step { Stepped lines.old.text.now lines.old.at limit places p result lines.new.at }
{
    let r = next_request(lines, &mut room.lists)?;
    if !rises(p, r.key) {
        return None;
    }
    let count = judge(lines, r, room)?;
    let held = p.held + count as u64;
    if limit < held {
        return None;
    }
    let taken = p.taken + place_of(r);
    if places < taken {
        return None;
    }
    let last = Some(r.key);
    Some(Pass { last, held, taken })
}

// Whether each request that the lines list is in order, lawful, with few candidates, and all of them are within L and Q.
pub fn each_fits(mut lines: Lines, limit: u64, places: u64) -> bool
    requires { (limit ≤ max_announcements) × (places ≤ max_places) }
    ensures { EachFits lines.entry.text.now lines.entry.at limit places result }
{
    let mut bytes = ListBytes::zeros();
    let mut conns = [0; MAX_ALTERNATES];
    let mut room = Room {
        lists: bytes.lend(),
        conns: &mut conns,
    };
    let mut pass = Pass {
        last: None,
        held: 0,
        taken: 0,
    };
    while !lines.is_empty() {
        let Some(next) = advance(&mut lines, pass, limit, places, &mut room) else {
            return false;
        };
        pass = next;
    }
    true
}

// plan on the bytes of a sound store (document 01, "plan"): the owners that are due expire, the parents kept are considered, then the keys
// asked for. For the length of these the package places are set apart: all but expiry concerns rows alone. Then the rows tell when to look again.
ghost use Rattle.std.specs.Prelude.{min, ◌+◌, ◌*◌, ◌≤◌, ◌<◌, length};
ghost use Rattle.machine.specs.Call.{entry_bytes};
ghost use Rattle.machine.specs.Limits.{max_request_checks};
ghost use Rattle.store.specs.Shown.{limit_in, Kept};
ghost use Rattle.apart.specs.Apart.{Rested};
ghost use Rattle.planning.specs.Replying.{asked_in, Begins, SelectsOf, PlansOf};

use crate::{expiring, noted, replying};
use apart::SLOT;
use machine::clock::Clock;

// How many entries a plan has, how many keys it considered, and when to look again (document 02, request c).
#[derive(Clone, Copy)]
pub struct Planned {
    pub count: usize,
    pub considered: u64,
    pub next: Option<u64>,
}

// Every owner that is due expires, and the parents kept are considered. The c places of the store are set apart.
fn begin(
    s: &mut [u8],
    m: usize,
    first: &mut [u8; SLOT],
    c: usize,
    clock: Clock,
    picks: &mut [usize],
) -> selecting::Scan
    requires { Rested s.old first.old m c × (max_request_checks < length picks.old) }
    ensures { Begins s.old s.new first.old first.new m c picks.new clock.time result }
{
    let e = expiring::expire(s, m, first, c, clock.time);
    let v = selecting::Scan::fresh();
    let w = noted::phase_noted(s, m, first, e, clock, picks, v);
    apart::slots::forget(s, m, first, e);
    w
}

// Expiry and both phases, over the keys asked for: those that given bytes hold, or all after the ready cursor and round to it.
fn select(s: &mut [u8], clock: Clock, asked: Option<&[u8]>, out: &mut [u8]) -> replying::Reply
    requires { Kept s.old × (entry_bytes * min (max_request_checks + 1) (limit_in s.old) ≤ length out.old) }
    ensures { SelectsOf s.old s.new out.old out.new clock.time (asked_in (λ g. g.now) asked.entry) result }
{
    let c = store::head::held_places(s);
    let m = apart::bare_bytes(s);
    let mut first = [0; SLOT];
    apart::set_apart(s, m, &mut first);
    let mut picks = [0; replying::MAX_SELECTED];
    let v = begin(s, m, &mut first, c, clock, &mut picks);
    let r = replying::ask(&mut s[..m], clock, asked, &mut picks, v, out);
    apart::put_back(s, m, &first, c);
    r
}

// Plans over the keys that given bytes hold, and the ready cursor stays; or over all keys after it and round to it, and it becomes the last key considered.
pub fn plan(s: &mut [u8], clock: Clock, asked: Option<&[u8]>, out: &mut [u8]) -> Planned
    requires { Kept s.old × (entry_bytes * min (max_request_checks + 1) (limit_in s.old) ≤ length out.old) }
    ensures { PlansOf s.old s.new out.old out.new clock.time (asked_in (λ g. g.now) asked.entry) result }
{
    let r = select(s, clock, asked, out);
    Planned {
        count: r.count,
        considered: r.considered,
        next: looking::next_look(s, clock.time),
    }
}

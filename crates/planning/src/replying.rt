// The second phase of a plan, and its answer.
ghost use Rattle.std.specs.Prelude.{min, ◌+◌, ◌*◌, ◌≤◌, ◌<◌, ◌≡◌, length};
ghost use Rattle.machine.specs.Call.{entry_bytes};
ghost use Rattle.machine.specs.Limits.{max_request_checks};
ghost use Rattle.machine.specs.Typed.{Each, KeyTyped};
ghost use Rattle.store.specs.Shown.{limit_in, Kept};
ghost use Rattle.selecting.specs.Selecting.{Marked};
ghost use Rattle.selecting.specs.Phasing.{key_count, given_keys, Phased};
ghost use Rattle.planning.specs.Replying.{asked_in, Closed, Begun, most_noted, AsksOf};

use machine::clock::Clock;
use machine::limits::MAX_REQUEST_CHECKS;

// How many entries a plan has, and how many keys it considered.
#[derive(Clone, Copy)]
pub struct Reply {
    pub count: usize,
    pub considered: u64,
}

// The most that a plan selects: a phase stops behind a key, so one more than it stops at.
pub const MAX_SELECTED: usize = MAX_REQUEST_CHECKS + 1;

// The scan ends: the entries are written, sorted by priority, and what is marked is given back.
fn finish(s: &mut [u8], picks: &[usize], out: &mut [u8])
    requires { Marked s.old picks.now (length picks.now) × (length picks.now ≤ max_request_checks + 1) × (entry_bytes * length picks.now ≤ length out.old) }
    ensures { Closed s.old s.new picks.now (length picks.now) out.old out.new }
{
    let mut keys = [0; MAX_SELECTED];
    let mut order = [0; MAX_SELECTED];
    let mut sorted = [0; MAX_SELECTED];
    selecting::ordering::by_priority(s, picks, &mut keys, &mut order, &mut sorted);
    selecting::giving::put_entries(s, &sorted[..picks.len()], out);
    selecting::giving::give_back(s, picks);
}

// The phase over the keys that the bytes hold. (By itself, for what its clauses say: of a slice that stands in an Option a proof knows neither that its items are
// bytes nor how many they can be.)
fn phase_given(
    s: &mut [u8],
    clock: Clock,
    given: &[u8],
    picks: &mut [usize],
    v: selecting::Scan,
) -> selecting::Scan
    requires { Kept s.old × (max_request_checks < length picks.old) × (v.chosen ≤ max_request_checks) × (v.considered ≤ most_noted) }
    ensures { Phased s.old s.new picks.old picks.new clock.time (λ st. given_keys given.now) v result (key_count given.now) × Each KeyTyped (given_keys given.now) }
{
    selecting::phase::phase_given(s, clock, given, picks, v)
}

// Considers the keys asked for after the scan v: those that given bytes hold, and the ready cursor stays; or all after it and round to it, and it becomes the last key
// considered.
pub fn ask(
    s: &mut [u8],
    clock: Clock,
    asked: Option<&[u8]>,
    picks: &mut [usize],
    v: selecting::Scan,
    out: &mut [u8],
) -> Reply
    requires { Begun clock.time s.old picks.old v × (max_request_checks < length picks.old)
        × (entry_bytes * min (max_request_checks + 1) (limit_in s.old) ≤ length out.old) × (v.considered ≤ most_noted) }
    ensures { AsksOf s.old s.new picks.old out.old out.new clock.time (asked_in (λ g. g.now) asked.entry) v result }
{
    let w = match asked {
        Some(given) => phase_given(s, clock, given, picks, v),
        None => selecting::phase::phase_round(s, clock, picks, v),
    };
    finish(s, &picks[..w.chosen], out);
    if asked.is_none() {
        cursors::move_ready(s, w.last);
    }
    Reply {
        count: w.chosen,
        considered: w.considered,
    }
}

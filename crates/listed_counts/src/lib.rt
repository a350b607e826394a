// How often connections come in a saved listing (document 02, request b): whether one has more than 5,000 announcements, or owns more than 100 requests.
//
// From the text alone, in two passes, with a few counters (crates/heavy): 19 of them tell of 100,000 candidates which come more than 5,000 times, 999
// of as many owners which come more than 100 times. The first pass names connections and owners, the second counts those that have a name.
#![tactic(auto)]

ghost use Rattle.std.specs.Prelude.{◌≡◌, true, false, ◌<◌, ◌^◌, length};
ghost use Rattle.heavy.specs.Counters.{names_in, counts_in, none_above, sum};
ghost use Rattle.listed_counts.specs.Fronts.{number_for};
ghost use Rattle.listed_counts.specs.Passes.{Notes, Counts, NotesAll, CountsAll, LightRead};

use crate::fronts::{Front, next_front};
use heavy::Counter;
use listed_lines::cursor::Lines;
use machine::limits::{MAX_PEER_ANNOUNCEMENTS, MAX_PEER_IN_FLIGHT};

pub mod fronts;

// ---- one line more: candidates' connections have counters, owners have others

// Two functions of one shape, here and below: one notes a number, the other counts it, and each has a loop's invariant of its own. One walk over a closure would ask for a
// contract of the closure beside these two, and for the counters to be lent to it.

fn note_front(connections: &mut [Counter], owners: &mut [Counter], f: Front)
    requires { (sum (counts_in connections.old) < 2 ^ 63) × (sum (counts_in owners.old) < 2 ^ 63) }
    ensures connections { Notes (number_for false f) (names_in connections.old) (counts_in connections.old) (names_in connections.new) (counts_in connections.new) }
    ensures owners { Notes (number_for true f) (names_in owners.old) (counts_in owners.old) (names_in owners.new) (counts_in owners.new) }
{
    match f {
        Front::Nobody => {}
        Front::Owner(n) => heavy::note(owners, n),
        Front::Connection(n) => heavy::note(connections, n),
    }
}

fn count_front(connections: &mut [Counter], owners: &mut [Counter], f: Front)
    requires { (sum (counts_in connections.old) < 2 ^ 63) × (sum (counts_in owners.old) < 2 ^ 63) }
    ensures connections { (names_in connections.new ≡ names_in connections.old) × Counts (number_for false f) (names_in connections.old) (counts_in connections.old) (counts_in connections.new) }
    ensures owners { (names_in owners.new ≡ names_in owners.old) × Counts (number_for true f) (names_in owners.old) (counts_in owners.old) (counts_in owners.new) }
{
    match f {
        Front::Nobody => {}
        Front::Owner(n) => heavy::count(owners, n),
        Front::Connection(n) => heavy::count(connections, n),
    }
}

// ---- the passes over the lines (no `for`: an `Iterator` would have to say which lines are left)

fn note_lines(mut lines: Lines, connections: &mut [Counter], owners: &mut [Counter])
    requires { (sum (counts_in connections.old) ≡ 0) × (sum (counts_in owners.old) ≡ 0) }
    ensures connections { NotesAll lines.entry.text.now lines.entry.at false (names_in connections.old) (counts_in connections.old) (names_in connections.new) }
    ensures owners { NotesAll lines.entry.text.now lines.entry.at true (names_in owners.old) (counts_in owners.old) (names_in owners.new) }
{
    while let Some(front) = next_front(&mut lines) {
        note_front(connections, owners, front);
    }
}

fn count_lines(mut lines: Lines, connections: &mut [Counter], owners: &mut [Counter])
    requires { (sum (counts_in connections.old) ≡ 0) × (sum (counts_in owners.old) ≡ 0) }
    ensures connections { CountsAll lines.entry.text.now lines.entry.at false (names_in connections.old) (counts_in connections.old) (counts_in connections.new) }
    ensures owners { CountsAll lines.entry.text.now lines.entry.at true (names_in owners.old) (counts_in owners.old) (counts_in owners.new) }
{
    while let Some(front) = next_front(&mut lines) {
        count_front(connections, owners, front);
    }
}

// ---- counters

// K counters at 0. (The bound says that there is an array of K of them; a const parameter has no other place for it.)
fn zeros<const K: usize>() -> [Counter; K]
    requires { K < 2 ^ 58 }
    ensures { (length (counts_in result) ≡ K) × (sum (counts_in result) ≡ 0) }
{
    [Counter { name: 0, count: 0 }; K]
}

// Whether no count is above `most`.
fn few(counters: &[Counter], most: u64) -> bool
    ensures { result ≡ none_above most (counts_in counters.now) }
{
    heavy::none_above(counters.iter().map(|c| c.count), most)
}

// Of the requests that the lines list: whether no connection is that of more than 5,000 candidates, and none owns more than 100 requests.
pub fn light(lines: Lines) -> bool
    ensures { LightRead lines.entry.text.now lines.entry.at result }
{
    let mut connections = zeros::<19>();
    let mut owners = zeros::<999>();
    note_lines(lines, &mut connections, &mut owners);
    heavy::restart(&mut connections);
    heavy::restart(&mut owners);
    count_lines(lines, &mut connections, &mut owners);
    let light = few(&connections, MAX_PEER_ANNOUNCEMENTS);
    let rare = few(&owners, MAX_PEER_IN_FLIGHT);
    // (`&`: both are known here, so that there is one way through.)
    light & rare
}

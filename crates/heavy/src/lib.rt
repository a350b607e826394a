// Which numbers come more than so many times in a list, found in two passes over it with a few counters (document 02, request b: no connection with more than 5,000
// announcements, none that owns more than 100 requests).
//
// The contracts are equations between lists of numbers; the law of the two passes is `heavy-decides` (proofs/Frequent): with k counters
// they tell exactly whether one of at most (k + 1) * most + k numbers comes more than `most` times.
#![tactic(auto)]

ghost use Rattle.std.specs.Prelude.{◌≡◌, ◌<◌, ◌≤◌, ◌^◌, length, MatchOption};
ghost use Rattle.std.specs.Iterator.{IsFinite};
ghost use Rattle.heavy.specs.Counters.{names_in, counts_in, index_of, lowered, Notes, counted_with, sum, NoneAbove};

// A number and how often it is met. (Names and counts as two lists would have to be of one length; any such two are those of one list of counters, so that a slice of these asks
// no more. What is asked of counts alone, `none_above`, takes counts alone.)
#[derive(Clone, Copy)]
pub struct Counter {
    pub name: u64,
    pub count: u64,
}

// The counter that has this name.
fn named(counters: &[Counter], x: u64) -> Option<usize>
    ensures { MatchOption result (length (names_in counters.now) ≤ index_of x (names_in counters.now)) (λ i. (i ≡ index_of x (names_in counters.now)) × (i < length counters.now)) }
{
    counters.iter().position(|c| c.name == x)
}

// The first counter at 0.
fn unused(counters: &[Counter]) -> Option<usize>
    ensures { MatchOption result (length (counts_in counters.now) ≤ index_of 0 (counts_in counters.now)) (λ i. (i ≡ index_of 0 (counts_in counters.now)) × (i < length counters.now)) }
{
    counters.iter().position(|c| c.count == 0)
}

// Every count goes down by one.
fn lower(counters: &mut [Counter])
    ensures { (names_in counters.new ≡ names_in counters.old) × (counts_in counters.new ≡ lowered (counts_in counters.old)) }
{
    for c in counters {
        c.count = c.count.saturating_sub(1);
    }
}

// (That the counts' sum is below 2^63 stays a clause: a type of it would hold the lent counters, and each contract say that the reference stays.)
// First pass: x is met.
pub fn note(counters: &mut [Counter], x: u64)
    requires { sum (counts_in counters.old) < 2 ^ 63 }
    ensures { Notes (names_in counters.old) (counts_in counters.old) (names_in counters.new) (counts_in counters.new) x }
{
    if let Some(i) = named(counters, x) {
        counters[i].count += 1;
        return;
    }
    if let Some(j) = unused(counters) {
        counters[j] = Counter { name: x, count: 1 };
        return;
    }
    lower(counters);
}

// Between the passes: each name stays, and its count is 0.
pub fn restart(counters: &mut [Counter])
    ensures { (names_in counters.new ≡ names_in counters.old) × (sum (counts_in counters.new) ≡ 0) }
{
    for c in counters {
        c.count = 0;
    }
}

// Second pass: x is counted, if it has a name.
pub fn count(counters: &mut [Counter], x: u64)
    requires { sum (counts_in counters.old) < 2 ^ 63 }
    ensures { (names_in counters.new ≡ names_in counters.old) × (counts_in counters.new ≡ counted_with x (names_in counters.old) (counts_in counters.old)) }
{
    if let Some(at) = named(counters, x) {
        counters[at].count += 1;
    }
}

// Whether no count is above `most`: of any counts, in counters or alone.
pub fn none_above<I: Iterator<Item = u64>>(mut counts: I, most: u64) -> bool
    requires { I.can_next counts × IsFinite (I.remaining counts) }
    ensures { NoneAbove I.next_gives counts most result }
{
    counts.all(|c| c <= most)
}

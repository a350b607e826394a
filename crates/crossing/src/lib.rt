// What crosses between the calls and programs in C and Rust (crates/exports, crates/owned): arguments that come as numbers and bytes (arguments), replies that go as a status, 0 if the
// call was carried out and else the number of document 01's table, and numbers handed out. A reply said so is the public call's (specs/Status, by proofs/Statuses).
#![tactic(auto)]

ghost use Rattle.std.specs.Prelude.{◌≡◌};
ghost use Rattle.crossing.specs.Status.{held_out, free_out, preferred_out, permille_out, own_out, parents_out, considered_out, chosen_out, next_out};
ghost use Rattle.crossing.specs.Counts.{announced_out, owned_out};
ghost use Rattle.crossing.specs.Handed.{Handed, HandedOut, StatusOf};

use outcome::{Departure, Figures};
use public_plans::Selection;
use public_requests::Counts;

pub mod arguments;

// The status of an answer.
pub fn status<E>(a: Result<u64, E>) -> u64
where
    u64: From<E>,
    ensures { StatusOf ⟦<u64 as From<E>>⟧.from_gives a result }
{
    a.err().map_or(0, u64::from)
}

// The status of an answer, and what it tells handed to `write`, which puts it where the caller has asked for it: one function for all that is
// handed out. Those below say which number goes where.
fn hand<T, E, W: FnMut(T)>(a: Result<T, E>, write: &mut W) -> u64
where
    u64: From<E>,
    requires { W.IsAlwaysCallable write.old }
    ensures { Handed W.step ⟦<u64 as From<E>>⟧.from_gives a write.old write.new result }
{
    match a {
        Ok(told) => {
            write(told);
            0
        }
        Err(cause) => u64::from(cause),
    }
}

// The status, and the reply handed out: a number, or how many keys, entries, items or bytes stand in the answer buffer.
pub fn hand_out<E>(a: Result<u64, E>, reply: &mut u64) -> u64
where
    u64: From<E>,
    ensures { HandedOut ⟦<u64 as From<E>>⟧.from_gives a reply.old reply.new result }
{
    let mut write = |n: u64| *reply = n;
    hand(a, &mut write)
}

// The same of sum's figures.
pub fn hand_figures<E>(
    a: Result<Figures, E>,
    held: &mut u64,
    free: &mut u64,
    preferred_free: &mut u64,
    permille: &mut u64,
) -> u64
where
    u64: From<E>,
    ensures { (StatusOf ⟦<u64 as From<E>>⟧.from_gives a result) × (held.new ≡ held_out a held.old) × (free.new ≡ free_out a free.old)
        × (preferred_free.new ≡ preferred_out a preferred_free.old) × (permille.new ≡ permille_out a permille.old) }
{
    let mut write = |figures: Figures| {
        *held = figures.held;
        *free = figures.free;
        *preferred_free = figures.free_preferred;
        *permille = figures.permille;
    };
    hand(a, &mut write)
}

// The same of a connection that left: the counts of its own keys and of its parents' are handed out.
pub fn hand_departure<E>(a: Result<Departure, E>, own: &mut u64, parents: &mut u64) -> u64
where
    u64: From<E>,
    ensures { (StatusOf ⟦<u64 as From<E>>⟧.from_gives a result) × (own.new ≡ own_out a own.old) × (parents.new ≡ parents_out a parents.old) }
{
    let mut write = |left: Departure| {
        *own = left.own;
        *parents = left.parents;
    };
    hand(a, &mut write)
}

// The same of a plan: the counts of keys considered and of entries are handed out, and when to look again, 0 for no time.
pub fn hand_plan<E>(
    a: Result<Selection, E>,
    considered: &mut u64,
    count: &mut u64,
    next: &mut u64,
) -> u64
where
    u64: From<E>,
    ensures { (StatusOf ⟦<u64 as From<E>>⟧.from_gives a result) × (considered.new ≡ considered_out a considered.old) × (count.new ≡ chosen_out a count.old) × (next.new ≡ next_out a next.old) }
{
    let mut write = |plan: Selection| {
        *considered = plan.considered;
        *count = plan.chosen;
        *next = plan.next.unwrap_or(0);
    };
    hand(a, &mut write)
}

// The same of a connection's counts.
pub fn hand_counts<E>(a: Result<Counts, E>, announced: &mut u64, owned: &mut u64) -> u64
where
    u64: From<E>,
    ensures { (StatusOf ⟦<u64 as From<E>>⟧.from_gives a result) × (announced.new ≡ announced_out a announced.old) × (owned.new ≡ owned_out a owned.old) }
{
    let mut write = |counts: Counts| {
        *announced = counts.announced;
        *owned = counts.owned;
    };
    hand(a, &mut write)
}

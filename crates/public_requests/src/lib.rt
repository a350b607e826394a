// The public calls on a request (document 01, "Refusals and replies", "The request machine"): opening, sum, a connection's counts, those that bring candidates,
// those of a failed or withdrawn request, sweep and the poll gate. Each takes any store and asks nothing of it (crates/outcome).
#![tactic(auto)]

ghost use Rattle.std.specs.Prelude.{◌≡◌, ◌+◌, ◌-◌, ◌*◌, ◌/◌, ◌≤◌};
ghost use Rattle.machine.specs.Limits as limits;
ghost use Rattle.machine.specs.Call.{Open, On, Sum, sizes_taken};
ghost use Rattle.outcome.specs.Outcome.{Leaves};
ghost use Rattle.outcome.specs.Reply.{reply_of, figures_of};

use machine::limits::{MAX_ANNOUNCEMENTS, MAX_PLACES};
use outcome::{Figures, RETURNED, Refusal, need, refusals};

pub mod candidates;
pub mod connections;
pub mod failures;
pub mod on_sound;
pub mod sweeps;

// How many announcements a connection has, and how many requests it owns.
#[derive(Clone, Copy, Debug, PartialEq, Eq)]
pub struct Counts {
    pub announced: u64,
    pub owned: u64,
}

// Whether opening takes these sizes.
pub fn sizes_taken(l: u64, q: u64) -> bool
    ensures { result ≡ sizes_taken l q }
{
    (1..=MAX_ANNOUNCEMENTS).contains(&l) && (1..=MAX_PLACES).contains(&q)
}

// Makes the store an empty tracker for L announcements and Q package places. It takes any store that is long enough.
pub fn open(s: &mut [u8], l: u64, q: u64) -> Result<u64, Refusal>
    ensures { Leaves (Open l q) s.old s.new (reply_of result) }
{
    if !sizes_taken(l, q) {
        return Err(Refusal::SizesOutOfRange);
    }
    let n = need(l as usize, q as usize);
    if s.len() < n {
        return Err(Refusal::StoreTooShort);
    }
    store::head::fill(&mut s[..n], l as usize, q as usize);
    Ok(RETURNED)
}

// How many announcements are held, how many more fit of unpreferred newcomers and of preferred ones, who may evict, and how full the tracker is in
// thousandths, rounded down.
#[tactic(auto, using(outcome::proofs::Owned::unsound), unfolding(machine::specs::Call::named))]
pub fn sum(s: &[u8]) -> Result<Figures, Refusal>
    ensures { Leaves (On Sum) s.now s.now (figures_of result) }
{
    refusals::of_store(s)?;
    on_sound::sum(s)
}

// The figures of n held of L, m of which can be evicted.
fn figures(n: u64, l: u64, m: u64) -> Figures
    requires { (1 ≤ l) × (l ≤ limits.max_announcements) × (n ≤ l) × (m ≤ n) }
    ensures { result ≡ record { held = n; free = l - n; free_preferred = l - n + m; permille = n * 1000 / l } }
{
    Figures {
        held: n,
        free: l - n,
        free_preferred: l - n + m,
        permille: n * 1000 / l,
    }
}

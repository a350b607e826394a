// The answers of the public calls, and the tests of document 01's table that they share ("Refusals and replies").
//
// A public call (crates public_requests, public_packages, public_plans, public_listings) takes the store that the caller lends, of any length and with any bytes,
// and asks nothing of it. Its contract says that reply, answer buffer and store are what one definition gives, `outcome_if` (specs/Outcome): the number of document 01's table and
// every byte as it was, or what the request machine does to the state that the bytes write, and the bytes past the need as they were.
#![tactic(auto)]

ghost use Rattle.std.specs.Prelude.{◌≡◌, ◌≤◌};
ghost use Rattle.machine.specs.Limits as limits;
ghost use Rattle.machine.specs.Table.{one};

pub mod refusal;
pub mod refusals;

use places::PLACE;
pub use refusal::Refusal;
use regions::{CONN, ROW};
use store::head::HEAD;

// What `sum` tells: how many announcements are held, how many more fit of unpreferred newcomers and of preferred ones, and how full the tracker is in thousandths.
#[derive(Clone, Copy, Debug, PartialEq, Eq)]
pub struct Figures {
    pub held: u64,
    pub free: u64,
    pub free_preferred: u64,
    pub permille: u64,
}

// How many keys of a connection that left stand in the answer buffer, and how many of parents behind them.
#[derive(Clone, Copy, Debug, PartialEq, Eq)]
pub struct Departure {
    pub own: u64,
    pub parents: u64,
}

// "Where the Rust returns nothing, the reply is 1."
pub const RETURNED: u64 = 1;

// "A reply of 0 is the Rust's `false`", 1 its `true`: replies are numbers in C, on event lines and in the contract of every call (`reply_of`), and so here. A bool, or
// nothing, as a call's answer would be made this number at each place that hands it on.
pub fn replied(yes: bool) -> u64
    ensures { result ≡ one yes }
{
    u64::from(yes)
}

// The bytes that a store needs for L and Q.
pub fn need(l: usize, q: usize) -> usize
    requires { (l ≤ limits.max_announcements) × (q ≤ limits.max_places) }
    ensures { result ≡ limits.need l q }
{
    8 * (HEAD + (ROW + CONN) * l + PLACE * q)
}

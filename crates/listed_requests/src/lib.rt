// The requests of a saved listing, from its text alone (document 02, request b; docs/LISTING.md): whether the state that it lists is sound, but for how often a
// connection comes. A listing that is not gets refusal 12.
//
// The text is one that lists requests (`Body`, listed_form/specs/Given); a contract says what the definition's test says of them (specs/Parts).
//
// Lines are walked by `while`, with the lists lent anew for each line: an `Iterator` would have to hold them, and `gather` stops in front of a line that it leaves.
#![tactic(auto)]

pub mod candidates;
pub mod distinct;
pub mod each;
pub mod forms;
pub mod lawful;

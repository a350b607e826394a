// Candidates that wait beside the store, to come in together: rows move once, however many come in. They are of one connection, or of several:
// what has no connection in its contract (`Mixed`) serves both.
//
// What only reads those that wait has them as one value (`Records`). Where their region is written it is a slice beside its count (`new` and m or d):
// a longer one will do too, which an array would not allow, and a struct over `&mut [u8]` would need a clause in each contract that the
// reference stays. That no more than `space` wait is a clause too: a type of it would be made anew of slice and count at each test. A caller with a
// region of its own has it and its count as one value (`rows::Waiting`). A clause that
// names two values, as that there is room in the store for the rows, stays a clause.
//
// `set_aside` and `defer` find the key of an item and leave the rest to a step at that key (`_at`): of a key that is a parameter a proof knows that
// its hash is below 2^256 (one function for both was tried, and has no such fact of the key that it found). The two have one shape and differ in what
// they test: one for both would take the test as a closure, and be longer than these.
#![tactic(auto)]

pub mod beside;
pub mod coming;
pub mod deferred;
pub mod going;
pub mod region;
pub mod rows;
pub mod together;

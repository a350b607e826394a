// Event lines (document 01, "Event lines"; docs/EVENTS.md): fields read, answers written.
//
// A reader's contract says that its answer is the value which a definition gives the field's bytes (machine/specs/Fields), a writer's that
// the text of the value stands where it was asked for and every other byte is as it was (machine/specs/Text). Laws of machine/proofs/RoundTrips
// join the two: what was written is read back, and each value has one text that is accepted.
#![tactic(auto)]

pub mod digits;
pub mod read;
pub mod write;

// Replies as text (document 01, "Event lines"; docs/EVENTS.md, "Answers"): refusals and numbers, lists of keys, lists of entries.
//
// specs/Replies has the text of each reply, specs/Kept what a line means beside the lists that are kept between lines, specs/Answers what the answer to a line says.
//
// A position goes beside the bytes that are written, as in crates/lines. In a struct of both, each function would have to say besides that the reference is still the same
// (tried: else its caller knows nothing of the bytes). How many records of an answer buffer a reply has is no length: the buffer is longer, and a slice of exactly those
// would be counted again by a division.
//
// A refusal, or what a call tells: a `match` in eight functions (here, in crates/calling, crates/keeping and crates/answering), since each puts another thing and its contract has
// another text; `numbers::refusal` is what they share.
#![tactic(auto)]

pub mod buffers;
pub mod entries;
pub mod holdings;
pub mod keys;
pub mod numbers;

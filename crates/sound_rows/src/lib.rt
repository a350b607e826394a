// The sound test's part on the candidates' rows: each decides what FlatSound (crates/store) says of the rows at the front of a region.
// That these rows lie within the slice is a fact of `Records`.
#![tactic(auto)]

pub mod candidate; // candidate.rt: a row by itself
pub mod group; // group.rt: rows of one hash over both kinds, and the whole
pub mod part; // part.rt: rows one behind the other

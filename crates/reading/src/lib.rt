// Fields of event lines (docs/EVENTS.md, "Lines and fields"): one after the other, by forms, and lists of hashes, which are read into bytes that are lent.
//
// A reader takes the line and an index in it, where the field before ends. (A cursor that holds both is no plainer: it would come back with each value, and each
// contract would have to say that it still holds the same line.)
#![tactic(auto)]

pub mod fields;
pub mod forms;
pub mod hashes;
pub mod list;

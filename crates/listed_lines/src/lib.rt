// The lines of a saved listing, read from its text (document 02, request b; docs/LISTING.md).
//
// A contract says that the answer is the line which the definition reads from these bytes (machine/specs/Listing). Hashes of a request's lists
// are stored in lent bytes, 32 bytes each; all else is answered by value. Nothing is asked of the text.
#![tactic(auto)]

pub mod cursor;
pub mod hash_lists;
pub mod line;
pub mod parts;
pub mod pieces;

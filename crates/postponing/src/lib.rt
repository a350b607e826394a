// Owners that fail and go together, and parents that come in together with them, whatever connections they are of. What fails stays in the store marked, by the
// deadline 0, until one pass over the rows takes it out; what comes in waits beside the store. Rows move once for many of them.
//
// Beside the store stand the rows that wait (`Waiting`) and how many owners are to go: a number that each step answers anew.
#![tactic(auto)]

pub mod among;
pub mod lapsing;
pub mod later;
pub mod settling;
pub mod silent;

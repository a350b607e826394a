// Document 01's request machine as definitions, which the other crates' contracts cite, and laws about them; in code only its limits
// and the clock that a call is given. What a reader must believe stands in specs/, in document 01's order; proofs/ shows that it keeps
// demand 3.
#![tactic(auto)]

pub mod clock;
pub mod limits;

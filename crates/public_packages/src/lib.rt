// The public calls on packages, on claims given up and of a connection that leaves (document 01, "The request machine"). Each takes any store and asks nothing of
// it (crates/outcome).
#![tactic(auto)]

pub mod departures;
pub mod on_sound;
pub mod package_calls;
pub mod package_claims;
pub mod package_info;

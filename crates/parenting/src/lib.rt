// Parents of one connection announced together (document 01, "announce_parents"): those that come in wait beside the store, and rows move once for many of
// them; where L are held the victims that give way to them are listed in one pass and go in another.
//
// Beside the store stand the rows that wait (`Waiting`) and what is known of the victims (`Known`). They are values of their own: a struct of both would be
// lent whole to each step, where a step writes one of them and reads the other.
#![tactic(auto)]

pub mod displacing;
pub mod joining;
pub mod listed;
pub mod parent;

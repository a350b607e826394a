// A line answered on a store (document 01, "Event lines"; docs/EVENTS.md).
//
// The step on one line is `answers::answer_line`, whose contract says what a line does to the store and to the kept lists, and what it prints.
//
// Store, kept lists, line and answer are lent one by one: of a struct of them each function would have to say that every reference is still the same (tried: else its
// caller knows nothing of the bytes). The clauses on lengths stay: `out` may be longer than the answer's room, and the line shorter than a line's room. What holds of the kept
// lists is said by their type (`keeping::kept::Lists`).
#![tactic(auto)]

pub mod answers;

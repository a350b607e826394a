// The lists that the program keeps between lines beside the store, and the words that use them: `plan`, `want`, `take`, `send`, `part` (docs/EVENTS.md).
//
// Store, kept lists, line and answer are lent one by one: of a struct of them each function would have to say that every reference is still the same (tried: else its
// caller knows nothing of the bytes). The clauses on lengths stay: `out` may be longer than the answer's room, and the line shorter than a line's room. What holds of the kept
// lists is said by their type (`kept::Lists`).
#![tactic(auto)]

pub mod arranging;
pub mod kept;
pub mod plans;

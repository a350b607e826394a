// Calls that leave the kept lists, carried out on a store, and their replies as text (docs/EVENTS.md): every word but `open`, `plan`, `want`, `take`, `send` and `part`.
//
// Store, line and answer are lent one by one: of a struct of them each function would have to say that every reference is still the same (tried: else its caller knows
// nothing of the bytes). The clauses on lengths stay: `out` may be longer than the answer's room, and the line shorter than a line's room.
#![tactic(auto)]

pub mod departures;
pub mod hashes;
pub mod listings;
pub mod missing;
pub mod numbers;
pub mod offers;
pub mod ownership;
pub mod parents;

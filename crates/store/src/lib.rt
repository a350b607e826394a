// The tracker's state in lent bytes (document 01, module 2; docs/STORE.md is the layout).
//
// The functions here take the need of a store, a slice of exactly need(L, Q) bytes, and speak of it as lists of records: `Shows`
// says that bytes write a flat state, and a contract says what holds of every flat state that the bytes write. A `requires` asks
// only that counts and sums are in range (`Shown`). `Shown` and `Kept` stay clauses: tried as a ghost field of a struct over `&mut [u8]`, and each
// function then said in a clause that the reference stays.
//
// Rows and connections are read, replaced, put in and taken out by one function each, over a trait of a store's parts (`parts`). Places are not: the code has no value of a
// whole place, so that `package_places` opens, closes and changes them by functions of its own.
#![tactic(auto)]

pub mod conns;
pub mod counting;
pub mod head;
pub mod layout;
pub mod package_places;
pub mod parts;
pub mod rows;
pub mod stamps;

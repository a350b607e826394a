// What event lines ask for (document 01, "Event lines"; docs/EVENTS.md): a line's word, and the values of the fields behind it.
//
// `calls::call_of` answers what a line asks for, by specs/Calls. A list is read where its call is carried out, into bytes that are lent.
#![tactic(auto)]

pub mod calls;
pub mod vocabulary;

// Lists of a line other than hashes, read into bytes that are lent: keys and items (40 bytes each), numbers (8), and items with their priorities.
//
// The read_list of a module gives the bytes that hold the list, of those lent, or tells that the line has no such list; its read_front counts what the front of the lent bytes holds.
// (Keys, items and numbers have a reader each, of one expression: its contract names the list and its room.)
#![tactic(auto)]

pub mod items;
pub mod keys;
pub mod numbers;
pub mod offers;

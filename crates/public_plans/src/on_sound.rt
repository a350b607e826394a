// The calls of this crate on a store that is known to be sound: tests 4 to 8, and the call (see crates/public_requests/src/on_sound.rt).
pub mod arrangements;
pub mod ownership;
pub mod plans;
pub mod wrappers;

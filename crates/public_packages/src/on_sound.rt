// The calls of this crate on a store that is known to be sound: tests 4 to 8, and the call (see crates/public_requests/src/on_sound.rt).
pub mod departures;
pub mod package_calls;
pub mod package_claims;
pub mod package_info;

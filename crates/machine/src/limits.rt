// Document 01's limits under the Rust's names, as machine/specs/Limits has them. A contract that speaks of a limit is proved of these numbers.

// The greatest L, and the greatest Q.
pub const MAX_ANNOUNCEMENTS: u64 = 100_000;

pub const MAX_PLACES: u64 = 4_096;

// Candidates of a hash, over both kinds.
pub const MAX_ALTERNATES: usize = 8;

// Announcements of a connection, and requests that it may own.
pub const MAX_PEER_ANNOUNCEMENTS: u64 = 5_000;

pub const MAX_PEER_IN_FLIGHT: u64 = 100;

// Keys that a sweep hands out, and entries at which a plan's phase stops.
pub const MAX_KNOWN_CHECKS: usize = 1_024;

pub const MAX_REQUEST_CHECKS: usize = 1_024;

// Hashes whose owners are asked for together (document 02, request e).
pub const MAX_ASKED_HASHES: usize = 1_024;

// Wtxids of a package, and parents of a request.
pub const MAX_WTXIDS: usize = 100;

pub const MAX_PARENTS: usize = 100;

// Milliseconds: how long an owner has, by how much a less welcome announcement waits, and between polls.
pub const REQUEST_LIFETIME: u64 = 60_000;

pub const SOURCE_DELAY: u64 = 2_000;

pub const REQUEST_POLL_INTERVAL: u64 = 100;

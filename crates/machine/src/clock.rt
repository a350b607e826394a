// A call's clock: milliseconds, early enough that a deadline fits in 64 bits (document 01, "Sizes": at most 2^64 − 60,001).
ghost use Rattle.std.specs.Prelude.{◌≡◌, ◌≤◌, ◌<◌, MatchOption};
ghost use Rattle.machine.specs.Limits.{latest_clock};

use crate::limits::REQUEST_LIFETIME;

const LATEST: u64 = u64::MAX - REQUEST_LIFETIME;

#[derive(Clone, Copy)]
pub struct Clock {
    pub time: u64,
    ghost early: { time ≤ latest_clock },
}

impl Clock {
    // None of a time that is later.
    pub fn new(time: u64) -> Option<Clock>
        ensures { MatchOption result (latest_clock < time) (λ c. c.time ≡ time) }
    {
        if LATEST < time {
            return None;
        }
        Some(Clock { time })
    }
}

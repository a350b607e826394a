// counts: what a connection has. It is no call of document 01, and only reads.
ghost use Rattle.public_requests.specs.Counting.{counts_of, CountsOf};

use crate::{Counts, on_sound};
use outcome::{Refusal, refusals};

// How many announcements the connection has, and how many requests it owns.
pub fn counts(s: &[u8], connection: u64) -> Result<Counts, Refusal>
    ensures { CountsOf s.now connection (counts_of result) }
{
    refusals::of_store(s)?;
    on_sound::connections::counts(s, connection)
}

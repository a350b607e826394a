// The answer buffer of a call.
//
// Two functions of one shape: a call's contract names the buffer, and one over the size would give its callers a list of so many zeros, which a proof may write out.
ghost use Rattle.std.specs.Prelude.{◌≡◌};
ghost use Rattle.asking.specs.Calls.{answer_buffer, owners_buffer};

use asking::calls::{MOST_ANNOUNCEMENTS, MOST_PLACES};
use machine::limits::{MAX_ASKED_HASHES, MAX_PARENTS};
use owners::OWNER;

// Bytes of the longest answer but that of `nfd`: a key for each announcement, and for each parent of each package.
pub const ANSWER: usize = (MOST_ANNOUNCEMENTS as usize + MOST_PLACES as usize * MAX_PARENTS)
    * lent_lists::KEY;

pub fn answer_buffer() -> [u8; ANSWER]
    ensures { result ≡ answer_buffer }
{
    [0u8; ANSWER]
}

// That of owners: of as many hashes as may be asked for together.
const OWNERS: usize = MAX_ASKED_HASHES * OWNER * 8;

pub fn owners_buffer() -> [u8; OWNERS]
    ensures { result ≡ owners_buffer }
{
    [0u8; OWNERS]
}

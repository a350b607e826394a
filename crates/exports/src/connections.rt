// counts, for C and Rust: no call of document 01. It only reads, and hands nothing out if it is refused.
ghost use Rattle.crossing.specs.Counts.{HandsCounts};

use crossing::hand_counts;

// How many announcements the connection has, and how many requests it owns, deadlines over or not.
#[unsafe(no_mangle)]
pub extern "C" fn tracker_counts(
    s: &[u8],
    connection: u64,
    announced: &mut u64,
    owned: &mut u64,
) -> u64
    ensures { HandsCounts s.now connection result announced.old announced.new owned.old owned.new }
{
    let c = public_requests::connections::counts(s, connection);
    hand_counts(c, announced, owned)
}

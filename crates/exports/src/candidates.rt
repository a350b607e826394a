// The calls that bring candidates, for C and Rust. A call that is refused hands nothing out.
ghost use Rattle.machine.specs.Call.{On, Announce, RequestParent, AnnounceParents};
ghost use Rattle.lent_lists.specs.Lists.{hashes_in};
ghost use Rattle.crossing.specs.Arguments.{candidate_in};
ghost use Rattle.crossing.specs.Status.{HandsOut, HandsKeys};

use crossing::arguments::candidate;
use crossing::hand_out;

// A connection can deliver an item. The reply is 1 if it is kept.
#[unsafe(no_mangle)]
pub extern "C" fn tracker_announce(
    s: &mut [u8],
    connection: u64,
    item_type: u32,
    hash: &[u8; 32],
    ready: u64,
    preferred: bool,
    priority: u64,
    reply: &mut u64,
) -> u64
    ensures { HandsOut (On (Announce (candidate_in connection item_type hash.now ready preferred priority)))
        s.old s.new result reply.old reply.new }
{
    let c = candidate(connection, item_type, hash, ready, preferred, priority);
    let a = public_requests::candidates::announce(s, c);
    hand_out(a, reply)
}

// The same for a parent that is missing.
#[unsafe(no_mangle)]
pub extern "C" fn tracker_request_parent(
    s: &mut [u8],
    connection: u64,
    item_type: u32,
    hash: &[u8; 32],
    ready: u64,
    preferred: bool,
    priority: u64,
    reply: &mut u64,
) -> u64
    ensures { HandsOut (On (RequestParent (candidate_in connection item_type hash.now ready preferred priority)))
        s.old s.new result reply.old reply.new }
{
    let c = candidate(connection, item_type, hash, ready, preferred, priority);
    let a = public_requests::candidates::request_parent(s, c);
    hand_out(a, reply)
}

// Requests the parents of a transaction, 32 bytes each. The keys of those that are kept stand in the answer: so many as `count` says.
#[unsafe(no_mangle)]
pub extern "C" fn tracker_announce_parents(
    s: &mut [u8],
    connection: u64,
    parents: &[u8],
    clock: u64,
    answer: &mut [u8],
    count: &mut u64,
) -> u64
    ensures { HandsKeys (On (AnnounceParents connection (hashes_in parents.now) clock answer.old))
        s.old s.new answer.new result count.old count.new }
{
    let l = public_requests::candidates::announce_parents(s, connection, parents, clock, answer);
    hand_out(l, count)
}

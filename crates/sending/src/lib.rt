// Sending (document 01, "Sending"): what a claim has taken, arranged by ascending connection, and one connection's part of it.
#![tactic(auto, using(requests::proofs::Keeping::kept_shown))]

ghost use Rattle.sending.specs.Parts.{Parted};

pub mod arranging;
pub mod witness;

// ---- one connection's requests

// The connection's part of the arranged list. Of a list that is not arranged it is some part. (Of entry structs: C and the event program hand over bytes, of which
// `public_plans::arrangements::part` tells the first and the count. Here it is for callers in Rattle:
// docs/DECISIONS.md and docs/CALLS.md name it.)
pub fn part(list: &[claiming::Entry], connection: u64) -> &[claiming::Entry]
    ensures { Parted connection list.now result.now }
{
    let first = list.partition_point(|e| e.candidate.connection < connection);
    let end = list.partition_point(|e| e.candidate.connection <= connection);
    &list[first..end.max(first)]
}

// announce, request_parent and announce_parents on a sound store.
ghost use Rattle.machine.specs.Call.{On, Announce, RequestParent, AnnounceParents};
ghost use Rattle.lent_lists.specs.Lists.{hashes_in};
ghost use Rattle.requests.specs.Changes.{candidate_of};
ghost use Rattle.store.specs.Image.{SoundStore};
ghost use Rattle.outcome.specs.Outcome.{Leaves, LeavesWith};
ghost use Rattle.outcome.specs.Reply.{reply_of, listing_of};

use outcome::{Refusal, refusals, replied};

pub fn announce(s: &mut [u8], c: requests::Candidate) -> Result<u64, Refusal>
    requires { SoundStore s.old }
    ensures { Leaves (On (Announce (candidate_of c))) s.old s.new (reply_of result) }
{
    refusals::of_connection(c.connection)?;
    let n = refusals::need_of(s);
    Ok(replied(announcing::announce(&mut s[..n], c)))
}

pub fn request_parent(s: &mut [u8], c: requests::Candidate) -> Result<u64, Refusal>
    requires { SoundStore s.old }
    ensures { Leaves (On (RequestParent (candidate_of c))) s.old s.new (reply_of result) }
{
    refusals::of_connection(c.connection)?;
    let n = refusals::need_of(s);
    Ok(replied(announcing::request_parent(&mut s[..n], c)))
}

pub fn announce_parents(
    s: &mut [u8],
    connection: u64,
    parents: &[u8],
    clock: u64,
    answer: &mut [u8],
) -> Result<u64, Refusal>
    requires { SoundStore s.old }
    ensures { LeavesWith (On (AnnounceParents connection (hashes_in parents.now) clock answer.old)) s.old s.new answer.new (listing_of result) }
{
    let count = lent_lists::hashes(parents);
    let (connection, clock) = refusals::in_turn(
        connection,
        clock,
        count,
        answer.len(),
        refusals::KEYS_ANSWER,
    )?;
    let n = refusals::need_of(s);
    let listed = parenting::listed::announce_parents(
        &mut s[..n],
        connection,
        clock.time,
        parents,
        answer,
    );
    Ok(listed as u64)
}

// The wrappers' public calls: announce_transactions, transaction_response_completed and transaction_not_found (document 01, "Wrappers' tracker part").
#![tactic(auto, using(crate::proofs::Unsound::unsound), unfolding(machine::specs::Call::named))]

ghost use Rattle.ident.specs.Words.{hash_num};
ghost use Rattle.machine.specs.Call.{On, AnnounceTransactions, TransactionResponseCompleted, TransactionNotFound};
ghost use Rattle.lent_lists.specs.Items.{items_in, offers_in};
ghost use Rattle.outcome.specs.Outcome.{Leaves, LeavesWith};
ghost use Rattle.outcome.specs.Reply.{reply_of, listing_of};

use super::on_sound;
use outcome::{Refusal, refusals};

// The connection announces the items, which are given in 40 bytes each, with the priorities beside them in 8; the shorter list decides. source: a wtxid
// source exists. (Two bools, as in document 01's call and the C interface.)
pub fn announce_transactions(
    s: &mut [u8],
    connection: u64,
    clock: u64,
    preferred: bool,
    source: bool,
    items: &[u8],
    priorities: &[u8],
) -> Result<u64, Refusal>
    ensures { Leaves (On (AnnounceTransactions connection clock preferred source (offers_in items.now priorities.now))) s.old s.new (reply_of result) }
{
    refusals::of_store(s)?;
    on_sound::wrappers::announce_transactions(
        s, connection, clock, preferred, source, items, priorities,
    )
}

// A response of the connection is complete: what it still owns of this transaction, under either identity, has failed.
pub fn transaction_response_completed(
    s: &mut [u8],
    connection: u64,
    x: ident::Txid,
    w: ident::Wtxid,
    clock: u64,
) -> Result<u64, Refusal>
    ensures { Leaves (On (TransactionResponseCompleted connection (hash_num x.0) (hash_num w.0) clock)) s.old s.new (reply_of result) }
{
    refusals::of_store(s)?;
    on_sound::wrappers::transaction_response_completed(s, connection, x, w, clock)
}

// The connection does not have the items, which are given in 40 bytes each: what it owns of them has failed, and so have its claims to the packages among them. The
// keys of what failed stand in the answer, followed by those of the parents that are kept where there are some.
pub fn transaction_not_found(
    s: &mut [u8],
    connection: u64,
    items: &[u8],
    clock: u64,
    answer: &mut [u8],
) -> Result<u64, Refusal>
    ensures { LeavesWith (On (TransactionNotFound connection (items_in items.now) clock answer.old)) s.old s.new answer.new (listing_of result) }
{
    refusals::of_store(s)?;
    on_sound::wrappers::transaction_not_found(s, connection, items, clock, answer)
}

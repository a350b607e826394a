// announce_transactions, transaction_response_completed and transaction_not_found on a sound store.
ghost use Rattle.std.specs.Prelude.{◌≡◌, ◌+◌, ◌*◌, length};
ghost use Rattle.ident.specs.Words.{hash_num};
ghost use Rattle.machine.specs.Limits.{max_parents};
ghost use Rattle.machine.specs.Call.{On, AnnounceTransactions, TransactionResponseCompleted, TransactionNotFound, key_bytes};
ghost use Rattle.lent_lists.specs.Items.{items_in, offers_in};
ghost use Rattle.store.specs.Image.{SoundStore};
ghost use Rattle.outcome.specs.Outcome.{Leaves, LeavesWith};
ghost use Rattle.outcome.specs.Reply.{reply_of, listing_of};

use machine::limits::MAX_PARENTS;
use outcome::{Refusal, refusals};

pub fn announce_transactions(
    s: &mut [u8],
    connection: u64,
    clock: u64,
    preferred: bool,
    source: bool,
    items: &[u8],
    priorities: &[u8],
) -> Result<u64, Refusal>
    requires { SoundStore s.old }
    ensures { Leaves (On (AnnounceTransactions connection clock preferred source (offers_in items.now priorities.now))) s.old s.new (reply_of result) }
{
    let (connection, clock) = refusals::of_connection_and_clock(connection, clock)?;
    let n = refusals::need_of(s);
    wrapping::offering::announce_transactions(
        &mut s[..n],
        connection,
        clock,
        preferred,
        source,
        items,
        priorities,
    );
    Ok(outcome::RETURNED)
}

pub fn transaction_response_completed(
    s: &mut [u8],
    connection: u64,
    x: ident::Txid,
    w: ident::Wtxid,
    clock: u64,
) -> Result<u64, Refusal>
    requires { SoundStore s.old }
    ensures { Leaves (On (TransactionResponseCompleted connection (hash_num x.0) (hash_num w.0) clock)) s.old s.new (reply_of result) }
{
    refusals::of_connection_and_clock(connection, clock)?;
    let n = refusals::need_of(s);
    wrapping::transaction_response_completed(&mut s[..n], connection, x, w, clock);
    Ok(outcome::RETURNED)
}

// The bytes that the answer of transaction_not_found may need: keys of its items, and 100 × Q.
fn missing_needs(s: &[u8], items: &[u8]) -> usize
    requires { SoundStore s.now }
    ensures { (w : SoundStore s.now) → result ≡ key_bytes * (length (items_in items.now) + max_parents * w.state.places) }
{
    let q = store::head::places(s);
    let count = lent_lists::items(items);
    (count + MAX_PARENTS * q) * lent_lists::KEY
}

pub fn transaction_not_found(
    s: &mut [u8],
    connection: u64,
    items: &[u8],
    clock: u64,
    answer: &mut [u8],
) -> Result<u64, Refusal>
    requires { SoundStore s.old }
    ensures { LeavesWith (On (TransactionNotFound connection (items_in items.now) clock answer.old)) s.old s.new answer.new (listing_of result) }
{
    let needs = missing_needs(s, items);
    let (connection, clock) = refusals::in_turn(connection, clock, 0, answer.len(), needs)?;
    let n = refusals::need_of(s);
    let listed = wrapping::missing::transaction_not_found(
        &mut s[..n],
        connection,
        items,
        clock.time,
        answer,
    );
    Ok(listed as u64)
}

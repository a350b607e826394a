// The wrappers' calls, of an owner.
ghost use Rattle.machine.specs.Call.{On, AnnounceTransactions, TransactionResponseCompleted, TransactionNotFound};
ghost use Rattle.store.specs.Image.{SoundStore};
ghost use Rattle.lent_lists.specs.Items.{items_in, offers_in};
ghost use Rattle.outcome.specs.Outcome.{Leaves};
ghost use Rattle.crossing.specs.Arguments.{hash_given};
ghost use Rattle.crossing.specs.Status.{numbered, HandsKeys};

// The connection announces the items, which are given in 40 bytes each, with the priorities beside them in 8; the shorter list decides. source: a wtxid source exists.
// Carried out, it replies 1.
#[unsafe(no_mangle)]
pub extern "C" fn tracker_owned_announce_transactions(
    s: &mut [u8],
    connection: u64,
    clock: u64,
    preferred: bool,
    source: bool,
    items: &[u8],
    priorities: &[u8],
) -> u64
    requires { SoundStore s.old }
    ensures leaves { Leaves (On (AnnounceTransactions connection clock preferred source (offers_in items.now priorities.now))) s.old s.new (numbered result 1) }
    ensures sound { SoundStore s.new }
{
    let a = public_plans::on_sound::wrappers::announce_transactions(
        s, connection, clock, preferred, source, items, priorities,
    );
    crossing::status(a)
}

// A response of the connection is complete: what it still owns of this transaction, under either identity, has failed. Carried out, it replies 1.
#[unsafe(no_mangle)]
pub extern "C" fn tracker_owned_transaction_response_completed(
    s: &mut [u8],
    connection: u64,
    txid: &[u8; 32],
    wtxid: &[u8; 32],
    clock: u64,
) -> u64
    requires { SoundStore s.old }
    ensures leaves { Leaves (On (TransactionResponseCompleted connection (hash_given txid.now) (hash_given wtxid.now) clock)) s.old s.new (numbered result 1) }
    ensures sound { SoundStore s.new }
{
    let txid = ident::Txid(ident::Hash::from(txid));
    let wtxid = ident::Wtxid(ident::Hash::from(wtxid));
    crossing::status(
        public_plans::on_sound::wrappers::transaction_response_completed(
            s, connection, txid, wtxid, clock,
        ),
    )
}

// The connection does not have the items, which are given in 40 bytes each: what it owns of them has failed, and so have its claims to the packages among them. The
// keys of what failed stand in the answer, followed by those of the parents that are kept where there are some: so many as `count` says.
#[unsafe(no_mangle)]
pub extern "C" fn tracker_owned_transaction_not_found(
    s: &mut [u8],
    connection: u64,
    items: &[u8],
    clock: u64,
    answer: &mut [u8],
    count: &mut u64,
) -> u64
    requires { SoundStore s.old }
    ensures hands_keys { HandsKeys (On (TransactionNotFound connection (items_in items.now) clock answer.old))
        s.old s.new answer.new result count.old count.new }
    ensures sound { SoundStore s.new }
{
    let l = public_plans::on_sound::wrappers::transaction_not_found(
        s, connection, items, clock, answer,
    );
    crossing::hand_out(l, count)
}

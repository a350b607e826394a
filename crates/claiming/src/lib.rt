// claim (document 01, "claim"): an entry of the checked list is taken if its hash is unowned and it is still, in every field, what
// plan would choose for its hash.
#![tactic(auto)]

ghost use Rattle.std.specs.Prelude.{◌≡◌, ◌/◌, ◌%◌};
ghost use Rattle.machine.specs.Claim as machine;
ghost use Rattle.store.specs.Gather.{kind_is, item_kind_as};
ghost use Rattle.store.specs.Shown.{Kept};
ghost use Rattle.requests.specs.Changes.{Tells};
ghost use Rattle.announcing.specs.Answers.{Answered};
ghost use Rattle.announcing.specs.Evicts.{entry_at};
ghost use Rattle.claiming.specs.Claiming.{entry_of, taking};

use machine::clock::Clock;
use machine::limits::REQUEST_LIFETIME;

pub mod checked;
pub mod entries;

// What a plan answers and a claim is given: a candidate with its request's key. Entries are equal "in every field", of which `preferred` is one (document 01).
#[derive(Clone, Copy, Debug, PartialEq, Eq)]
pub struct Entry {
    pub key: ident::Key,
    pub candidate: requests::Candidate,
}

// ---- the entry of a row

// (By arms: a row's bits name no item kind by a number.)
fn item_kind(r: regions::Row) -> ident::ItemKind
    ensures { result ≡ item_kind_as (kind_is (r.bits % 2)) (r.bits / 2 % 2) }
{
    match (r.kind(), r.is_witness()) {
        (ident::Kind::Txid, false) => ident::ItemKind::Transaction,
        (ident::Kind::Txid, true) => ident::ItemKind::WitnessTransaction,
        (ident::Kind::Wtxid, _) => ident::ItemKind::WTx,
    }
}

// What a row says of its request and its candidate.
impl From<regions::Row> for Entry {
    ghost from_gives = { λ r e. entry_of e ≡ entry_at r };

    fn from(r: regions::Row) -> Entry {
        let key = ident::Key::from(r);
        Entry {
            key,
            candidate: requests::Candidate {
                connection: r.conn,
                item: ident::Item {
                    kind: item_kind(r),
                    hash: key.hash,
                },
                ready: r.ready,
                preferred: r.is_preferred(),
                priority: r.prio,
            },
        }
    }
}

// ---- one entry

// Whether the entry is what a plan would choose for its hash, which nobody owns. (Tried as `is_some_and`: the closure then wants a clause of what it compares, longer than this.)
fn takes(s: &[u8], clock: u64, e: Entry) -> bool
    requires { Kept s.now }
    ensures { Tells s.now (λ t. result ≡ machine.takes clock (entry_of e) t) }
{
    match choosing::choose_free(s, clock, e.key.hash).pick {
        Some(p) => e == Entry::from(p.row),
        None => false,
    }
}

// Its connection becomes the owner, if the entry is taken.
pub fn claim_entry(s: &mut [u8], clock: Clock, e: Entry) -> bool
    requires { Kept s.old }
    ensures { Answered s.old s.new result (λ m t. taking clock.time (entry_of e) t) }
{
    if !takes(s, clock.time, e) {
        return false;
    }
    requests::own(
        s,
        e.key,
        e.candidate.connection,
        clock.time + REQUEST_LIFETIME,
    );
    true
}

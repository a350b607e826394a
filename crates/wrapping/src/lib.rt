// announce_transactions, transaction_response_completed and transaction_not_found on the bytes of a sound store (document 01,
// "Wrappers' tracker part").
#![tactic(auto, using(requests::proofs::Keeping::kept_shown))]

ghost use Rattle.ident.specs.Words.{hash_num};
ghost use Rattle.machine.specs.Wrapper as machine;
ghost use Rattle.store.specs.Shown.{Kept};
ghost use Rattle.requests.specs.Changes.{Makes};

pub mod lapsing;
pub mod missing;
pub mod offering;

// A response of the connection n is complete: what n still owns of this transaction, under either identity, has failed.
pub fn transaction_response_completed(
    s: &mut [u8],
    n: u64,
    x: ident::Txid,
    w: ident::Wtxid,
    clock: u64,
)
    requires { Kept s.old }
    ensures { Makes s.old s.new (λ t. Unit {0}) (machine.response_completed n (hash_num x.0) (hash_num w.0) clock) }
{
    failing::failed(s, ident::Key::from(x), n, clock);
    failing::failed(s, ident::Key::from(w), n, clock);
}

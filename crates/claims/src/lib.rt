// Package claims given up, on the bytes of a sound store (document 01, "The request machine"): forget_known; `waiting` has
// failed_package_claims.
#![tactic(auto)]

ghost use Rattle.std.specs.Prelude.{◌≡◌};
ghost use Rattle.ident.specs.Words.{key_num};
ghost use Rattle.machine.specs.Table.{at};
ghost use Rattle.machine.specs.Leave as machine;
ghost use Rattle.store.specs.Shown.{Kept};
ghost use Rattle.requests.specs.Changes.{Tells};
ghost use Rattle.claims.specs.Changes.{Becomes};

use ident::connection::Connection;
use lent_lists::{KEYS, LIST};
use package_stages::Stage;

pub mod waiting;

// Whether the request at k has an Enqueued package, or a flag or package whose owner is in time at clock.
fn guarded(s: &[u8], k: ident::Key, clock: u64) -> bool
    requires { Kept s.now }
    ensures { Tells s.now (λ t. result ≡ machine.guarded clock (at (key_num k) t)) }
{
    let r = package_stages::request_at(s, k);
    r.stage == Some(Stage::Enqueued) || r.stage.is_some() && r.is_alive(clock)
}

// Announces the parents beside the flag or package of the request at k for its owner, if it has one.
fn hand_on(s: &mut [u8], k: ident::Key, clock: u64)
    requires { Kept s.old }
    ensures { Becomes s.old s.new (λ m t. machine.owner_parents m clock (at (key_num k) t).owner (at (key_num k) t) t) }
{
    let r = package_stages::request_at(s, k);
    if let Some(owner) = r.owner {
        let n = Connection {
            number: owner.connection,
        };
        let mut list = [0; LIST];
        let parents = failing::parents::parents_for(s, k, n, &mut list);
        let mut kept = [0; KEYS];
        parenting::listed::announce_parents(s, n, clock, parents, &mut kept);
    }
}

// The request at k goes once its transaction is known, unless a package is still to come of it; its parents are announced for its owner.
pub fn forget_known(s: &mut [u8], k: ident::Key, clock: u64)
    requires { Kept s.old }
    ensures { Becomes s.old s.new (λ m t. machine.forget_known m (key_num k) clock t) }
{
    if guarded(s, k, clock) {
        return;
    }
    hand_on(s, k, clock);
    failing::forget(s, k);
}

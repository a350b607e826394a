// announce_parents: parents requested with the fallback mark (document 01, "announce_parents"). Connection and clock are arguments of their own, as
// document 01 gives them to each of these steps.
ghost use Rattle.std.specs.Prelude.{◌≡◌, ◌*◌, ◌≤◌, length};
ghost use Rattle.ident.specs.Words.{hash_num};
ghost use Rattle.machine.specs.Limits.{max_parents};
ghost use Rattle.machine.specs.Call.{key_bytes};
ghost use Rattle.machine.specs.Fail as machine;
ghost use Rattle.machine.specs.Fail.{parent_of};
ghost use Rattle.store.specs.Shown.{Kept};
ghost use Rattle.requests.specs.Changes.{candidate_of};
ghost use Rattle.lent_lists.specs.Lists.{hashes_in};
ghost use Rattle.announcing.specs.Answers.{Answered, KeysListed, one_parent};

use crate::parent;
use ident::connection::Connection;

// The candidate that a parent makes.
pub fn offered(h: ident::Hash, n: u64, clock: u64, priority: u64) -> requests::Candidate
    ensures { candidate_of result ≡ parent_of n clock (hash_num h) priority }
{
    let item = ident::Item {
        kind: ident::ItemKind::Transaction,
        hash: h,
    };
    requests::Candidate {
        connection: n,
        item,
        ready: clock,
        preferred: true,
        priority,
    }
}

// Requests one parent as t; if kept, a request under its Txid key is marked, even where the candidate sits under the Wtxid key.
pub fn announce_parent(
    s: &mut [u8],
    n: Connection,
    clock: u64,
    h: ident::Hash,
    priority: u64,
) -> bool
    requires { Kept s.old }
    ensures { Answered s.old s.new result (λ m t. one_parent m n.number clock (hash_num h) priority t) }
{
    let k = ident::Key::from(ident::Txid(h));
    let c = offered(h, n.number, clock, priority);
    if parent::request_parent_at(s, k, c) {
        requests::mark(s, k);
        return true;
    }
    false
}

// Announces the distinct parents, from priority 0 on, and lists in `out` the keys of those kept. Answers how many these are.
pub fn announce_parents(
    s: &mut [u8],
    n: Connection,
    clock: u64,
    parents: &[u8],
    out: &mut [u8],
) -> usize
    requires { Kept s.old × (length (hashes_in parents.now) ≤ max_parents) × (key_bytes * length (hashes_in parents.now) ≤ length out.old) }
    ensures { KeysListed s.old s.new out.old out.new result (λ m t. machine.announce_parents m n.number clock (hashes_in parents.now) t) }
{
    let count = lent_lists::hashes(parents);
    let mut kept = 0;
    let mut priority = 0;
    for i in 0..count {
        if !lent_lists::occurs_before(parents, i) {
            let h = lent_lists::hash_in(parents, i);
            if announce_parent(s, n, clock, h, priority) {
                lent_lists::put_key(out, kept, ident::Key::from(ident::Txid(h)));
                kept += 1;
            }
            priority += 1;
        }
    }
    kept
}

// announce_parents: the parents of a list announced together.
ghost use Rattle.std.specs.Prelude.{◌*◌, ◌≤◌, length};
ghost use Rattle.machine.specs.Limits.{max_parents};
ghost use Rattle.machine.specs.Call.{key_bytes};
ghost use Rattle.machine.specs.Fail as machine;
ghost use Rattle.store.specs.Shown.{Kept};
ghost use Rattle.lent_lists.specs.Lists.{hashes_in};
ghost use Rattle.announcing.specs.Answers.{KeysListed};

use crate::displacing;
use crate::displacing::Known;
use crate::parent::Parent;
use gathering::rows::Waiting;
use ident::connection::Connection;

// So few are announced one by one: none would wait.
const FEW: usize = 4;

// The same of many.
fn announce_many(s: &mut [u8], n: Connection, clock: u64, parents: &[u8], out: &mut [u8]) -> usize
    requires { Kept s.old × (length (hashes_in parents.now) ≤ max_parents) × (key_bytes * length (hashes_in parents.now) ≤ length out.old) }
    ensures { KeysListed s.old s.new out.old out.new result (λ m t. machine.announce_parents m n.number clock (hashes_in parents.now) t) }
{
    let count = lent_lists::hashes(parents);
    let mut new = Waiting::none();
    let mut q = Known::nothing_listed(false);
    let mut kept = 0;
    let mut priority = 0;
    for i in 0..count {
        if !lent_lists::occurs_before(parents, i) {
            let hash = lent_lists::hash_in(parents, i);
            let p = Parent {
                hash,
                connection: n,
                clock,
                priority,
                count,
            };
            if displacing::announce_further(s, &mut new, &mut q, p) {
                lent_lists::put_key(out, kept, ident::Key::from(ident::Txid(hash)));
                kept += 1;
            }
            priority += 1;
        }
    }
    displacing::finish(s, &mut new, &mut q, n.number);
    kept
}

// Announces the distinct parents, from priority 0 on, and lists in `out` the keys of those kept. Answers how many these are.
pub fn announce_parents(
    s: &mut [u8],
    n: Connection,
    clock: u64,
    parents: &[u8],
    out: &mut [u8],
) -> usize
    requires { Kept s.old × (length (hashes_in parents.now) ≤ max_parents) × (key_bytes * length (hashes_in parents.now) ≤ length out.old) }
    ensures { KeysListed s.old s.new out.old out.new result (λ m t. machine.announce_parents m n.number clock (hashes_in parents.now) t) }
{
    if lent_lists::hashes(parents) < FEW {
        return announcing::parents::announce_parents(s, n, clock, parents, out);
    }
    announce_many(s, n, clock, parents, out)
}

// An owner fails, and goes later with others.
ghost use Rattle.ident.specs.Words.{hash_num, key_num};
ghost use Rattle.words.specs.Words.{words};
ghost use Rattle.requests.specs.Changes.{Tells};
ghost use Rattle.postponing.specs.Pending.{Pends, OwnsInTime, FailsLater, Cleared};

use crate::{lapsing, settling};
use gathering::region;
use gathering::rows::Waiting;
use regions::listed::Records;

// Where a parent waits at the hash h, all that waits is settled. Answers how many owners are to go then.
fn clear_hash(s: &mut [u8], new: &mut Waiting, c: usize, h: ident::Hash) -> usize
    requires { Pends s.old (words new.old.bytes) new.old.count c }
    ensures { Cleared s.old s.new (words new.old.bytes) (words new.new.bytes) new.old.count new.new.count c result (hash_num h) }
{
    if !region::waits_at(Records::new(&new.bytes, new.count), h) {
        return c;
    }
    settling::settle(s, new, c);
    0
}

// The owner n of the request at k fails, beside the c that have failed and are to go with it. Answers how many are to go then.
pub fn fail_later(
    s: &mut [u8],
    new: &mut Waiting,
    c: usize,
    k: ident::Key,
    n: u64,
    clock: u64,
) -> usize
    requires { Pends s.old (words new.old.bytes) new.old.count c × Tells s.old (OwnsInTime n (key_num k)) }
    ensures { FailsLater s.old s.new (words new.old.bytes) (words new.new.bytes) new.old.count new.new.count c result (key_num k) n clock }
{
    let gone = clear_hash(s, new, c, k.hash);
    lapsing::lapse(s, k, n, clock);
    gone + 1
}

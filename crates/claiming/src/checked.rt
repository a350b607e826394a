// The checked list of a claim (document 01, module 5): a lent list of records, each entry handed by value to the claim of one entry. (Of entry structs: C and the
// event program hand over bytes, which go by `entries::claim_bytes`, so no crate calls this. It is what document 01 describes, and docs/DECISIONS.md and
// docs/CALLS.md name it.)
ghost use Rattle.std.specs.Prelude.{map, ◌*◌, ◌≤◌, length};
ghost use Rattle.machine.specs.Call.{entry_bytes};
ghost use Rattle.store.specs.Shown.{Kept};
ghost use Rattle.claiming.specs.Claiming.{entry_of, Claims};

use crate::entries;
use machine::clock::Clock;

// Claims the entries of the list, in order, and writes those that are taken into the answer. Answers how many.
pub fn claim(s: &mut [u8], clock: Clock, checked: &[crate::Entry], out: &mut [u8]) -> usize
    requires { Kept s.old × (entry_bytes * length checked.now ≤ length out.old) }
    ensures { Claims s.old s.new out.old out.new clock.time (map entry_of checked.now) result }
{
    let mut n = 0;
    for e in checked {
        n = entries::claim_next(s, clock, *e, out, n);
    }
    n
}

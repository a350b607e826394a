// The calls on a store that is known to be sound: of an owner of the bytes, who has them tested once.
//
// Each makes the tests 4 to 8 and carries the call out. The public calls are these behind the sound test: their contract is the same, and asks nothing of the
// store. What they leave of a sound store is sound (crates/outcome/proofs/Owned, `does-keeps-sound`), so that an owner never tests again.
//
// A call of document 01 is a function of its own, with the call's own arguments and the call in its contract, also where two have one shape (announce and
// request_parent; failed and failed_package_info; claim_package and begin_package_resolution). What all share stands once: the tests, the need, the reply (crates/outcome).
ghost use Rattle.machine.specs.Call.{On, Sum};
ghost use Rattle.store.specs.Image.{SoundStore};
ghost use Rattle.outcome.specs.Outcome.{Leaves};
ghost use Rattle.outcome.specs.Reply.{figures_of};

use crate::figures;
use outcome::{Figures, Refusal, refusals};

pub mod candidates;
pub mod connections;
pub mod failures;
pub mod sweeps;

pub fn sum(s: &[u8]) -> Result<Figures, Refusal>
    requires { SoundStore s.now }
    ensures { Leaves (On Sum) s.now s.now (figures_of result) }
{
    let l = store::head::limit(s) as u64;
    let n = store::head::rows(s) as u64;
    let e = refusals::need_of(s);
    let m = announcing::evict::evictable(&s[..e]);
    Ok(figures(n, l, m))
}

// owners_of on a sound store.
ghost use Rattle.machine.specs.Call.{On, OwnersOf};
ghost use Rattle.lent_lists.specs.Lists.{hashes_in};
ghost use Rattle.store.specs.Image.{SoundStore};
ghost use Rattle.outcome.specs.Outcome.{LeavesWith};
ghost use Rattle.public_plans.specs.Ownership.{owners_of};

use outcome::{Refusal, refusals};

pub fn owners_of(s: &[u8], hashes: &[u8], answer: &mut [u8]) -> Result<u64, Refusal>
    requires { SoundStore s.now }
    ensures { LeavesWith (On (OwnersOf (hashes_in hashes.now) answer.old)) s.now s.now
        answer.new (owners_of (hashes_in hashes.now) result) }
{
    if owners::list::wrong(hashes) {
        return Err(Refusal::WrongHashes);
    }
    let needs = owners::list::needs(hashes);
    refusals::of_buffer(answer.len(), needs)?;
    let n = refusals::need_of(s);
    let passed = owners::owners_of(&s[..n], hashes, answer);
    Ok(passed)
}

// Saving on a store that is known to be sound: of an owner of the bytes, who has them tested once.
ghost use Rattle.machine.specs.Call.{On, Save};
ghost use Rattle.store.specs.Image.{SoundStore};
ghost use Rattle.outcome.specs.Outcome.{LeavesWith};
ghost use Rattle.outcome.specs.Reply.{text_of};

use outcome::{Refusal, refusals};

// "saving needs a buffer of its length": the listing is measured before its first byte is written.
pub fn save(s: &[u8], answer: &mut [u8]) -> Result<u64, Refusal>
    requires { SoundStore s.now }
    ensures { LeavesWith (On (Save answer.old)) s.now s.now answer.new (text_of result) }
{
    let n = refusals::need_of(s);
    let needs = saving::length(&s[..n]);
    refusals::of_buffer(answer.len(), needs)?;
    let long = saving::write(&s[..n], answer);
    Ok(long as u64)
}

// arrange on a sound store.
ghost use Rattle.words.specs.Words.{words};
ghost use Rattle.machine.specs.Call.{On, Arrange};
ghost use Rattle.claiming.specs.Claiming.{entries_in};
ghost use Rattle.store.specs.Image.{SoundStore};
ghost use Rattle.outcome.specs.Outcome.{LeavesWith};
ghost use Rattle.public_plans.specs.Entries.{entries_of};

use super::plans::list_needs;
use outcome::{Refusal, refusals};

pub fn arrange(s: &[u8], witnesses: &[u8], taken: &[u8], answer: &mut [u8]) -> Result<u64, Refusal>
    requires { SoundStore s.now }
    ensures { LeavesWith (On (Arrange (words witnesses.now) (entries_in taken.now) answer.old)) s.now s.now
        answer.new (entries_of result) }
{
    // 0 is no connection.
    if sending::witness::listed(witnesses, 0) {
        return Err(Refusal::NoConnection);
    }
    let needs = list_needs(taken);
    refusals::of_buffer(answer.len(), needs)?;
    let n = refusals::need_of(s);
    let sent = sending::arranging::arrange(&s[..n], taken, witnesses, answer);
    Ok(sent as u64)
}

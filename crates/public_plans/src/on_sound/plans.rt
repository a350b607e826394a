// plan and claim on a sound store.
ghost use Rattle.std.specs.Prelude.{◌≡◌, min, ◌+◌, ◌*◌, length, IfSome};
ghost use Rattle.std.proofs.Math.Option.{none, some};
ghost use Rattle.machine.specs.Limits.{max_request_checks};
ghost use Rattle.machine.specs.Call.{On, Plan, Claim, entry_bytes};
ghost use Rattle.claiming.specs.Claiming.{entries_in};
ghost use Rattle.planning.specs.Replying.{asked_in};
ghost use Rattle.store.specs.Image.{Bytes, SoundStore};
ghost use Rattle.selecting.specs.Phasing.{given_keys};
ghost use Rattle.outcome.specs.Outcome.{LeavesWith};
ghost use Rattle.public_plans.specs.Entries.{entries_of, planned_of};

use crate::Selection;
use claiming::entries::ENTRY_BYTES;
use outcome::{Refusal, refusals};
use planning::replying::MAX_SELECTED;

// The bytes that an answer may need that has some of a list's entries: the length in entries.
pub fn list_needs(list: &[u8]) -> usize
    ensures { result ≡ entry_bytes * length (entries_in list.now) }
{
    claiming::entries::entries(list) * ENTRY_BYTES
}

pub fn claim(s: &mut [u8], clock: u64, checked: &[u8], answer: &mut [u8]) -> Result<u64, Refusal>
    requires { SoundStore s.old }
    ensures { LeavesWith (On (Claim clock (entries_in checked.now) answer.old)) s.old s.new answer.new (entries_of result) }
{
    let needs = list_needs(checked);
    let clock = refusals::of_clock_and_buffer(clock, answer.len(), needs)?;
    let n = refusals::need_of(s);
    let taken = claiming::entries::claim_bytes(&mut s[..n], clock, checked, answer);
    Ok(taken as u64)
}

// The bytes that its answer may need: min(1,025, L) entries.
fn plan_needs(s: &[u8]) -> usize
    requires { SoundStore s.now }
    ensures { (w : SoundStore s.now) → result ≡ entry_bytes * min (max_request_checks + 1) w.state.limit }
{
    MAX_SELECTED.min(store::head::limit(s)) * ENTRY_BYTES
}

// Over the keys that given bytes hold, or over all. (The slice in an Option does not say by itself that its bytes are bytes: so the two calls of document 01 stand below.)
fn plan_over(
    s: &mut [u8],
    clock: u64,
    asked: Option<&[u8]>,
    answer: &mut [u8],
) -> Result<Selection, Refusal>
    requires { SoundStore s.old × IfSome asked (λ g. Bytes g.now) }
    ensures { LeavesWith (On (Plan clock (asked_in (λ g. g.now) asked.entry) answer.old)) s.old s.new answer.new (planned_of result) }
{
    let needs = plan_needs(s);
    let clock = refusals::of_clock_and_buffer(clock, answer.len(), needs)?;
    let n = refusals::need_of(s);
    let planned = planning::plan::plan(&mut s[..n], clock, asked, answer);
    Ok(Selection::from(planned))
}

pub fn plan(s: &mut [u8], clock: u64, answer: &mut [u8]) -> Result<Selection, Refusal>
    requires { SoundStore s.old }
    ensures { LeavesWith (On (Plan clock none answer.old)) s.old s.new answer.new (planned_of result) }
{
    plan_over(s, clock, None, answer)
}

pub fn plan_given(
    s: &mut [u8],
    clock: u64,
    given: &[u8],
    answer: &mut [u8],
) -> Result<Selection, Refusal>
    requires { SoundStore s.old }
    ensures { LeavesWith (On (Plan clock (some (given_keys given.now)) answer.old)) s.old s.new answer.new (planned_of result) }
{
    plan_over(s, clock, Some(given), answer)
}

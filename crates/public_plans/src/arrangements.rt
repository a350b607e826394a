// The public calls for Sending: arrange, and part, which takes no store (document 01, "Sending").
#![tactic(auto, using(crate::proofs::Unsound::unsound), unfolding(machine::specs::Call::named))]

ghost use Rattle.std.specs.Prelude.{◌≡◌, ◌+◌, ◌*◌, ◌≤◌, leb, ltb, length, get_or};
ghost use Rattle.words.specs.Words.{words};
ghost use Rattle.machine.specs.Call.{On, Arrange, entry_bytes};
ghost use Rattle.claiming.specs.Claiming.{entries_in};
ghost use Rattle.outcome.specs.Outcome.{LeavesWith};
ghost use Rattle.public_plans.specs.Entries.{entries_of};
ghost use Rattle.sending.specs.Parts.{PartIs};

use super::on_sound;
use claiming::entries::{CONNECTION, ENTRY};
use outcome::{Refusal, refusals};

// What a claim has taken, given in 112 bytes an entry, stands in the answer by ascending connection, then claim order. A t item of a marked request turns v for a
// witness connection: those of the list, which has 8 bytes for each. The store is only read.
pub fn arrange(s: &[u8], witnesses: &[u8], taken: &[u8], answer: &mut [u8]) -> Result<u64, Refusal>
    ensures { LeavesWith (On (Arrange (words witnesses.now) (entries_in taken.now) answer.old)) s.now s.now
        answer.new (entries_of result) }
{
    refusals::of_store(s)?;
    on_sound::arrangements::arrange(s, witnesses, taken, answer)
}

// ---- one connection's requests

// A part of a list of entries: so many, from the first on. (No `std::ops::Range`: the call in C hands out a first and a count.)
#[derive(Clone, Copy)]
pub struct Stretch {
    pub first: usize,
    pub count: usize,
}

// The connection's part of the arranged list, which is given in 112 bytes an entry. Of a list that is not arranged it is some part.
// (Two searches that differ in `<` and `<=`: each closure has the clause that its search needs.)
pub fn part(list: &[u8], connection: u64) -> Stretch
    ensures { PartIs connection (entries_in list.now) result.first result.count }
{
    let n = claiming::entries::entries(list);
    let first = regions::lower_bound(
        n,
        |i| -> bool
            requires { entry_bytes * (i + 1) ≤ length list.now }
            ensures { result ≡ ltb (get_or (words list.entry.now) (i * 14 + 5) 0) connection }
        { words::get(list, i * ENTRY + CONNECTION) < connection },
    );
    let end = regions::lower_bound(
        n,
        |i| -> bool
            requires { entry_bytes * (i + 1) ≤ length list.now }
            ensures { result ≡ leb (get_or (words list.entry.now) (i * 14 + 5) 0) connection }
        { words::get(list, i * ENTRY + CONNECTION) <= connection },
    );
    Stretch {
        first,
        count: end.saturating_sub(first),
    }
}

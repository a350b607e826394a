// The public calls on listings (document 02, request b; docs/LISTING.md): saving and reading. Each takes any store and asks nothing of it (crates/outcome).
#![tactic(auto)]

ghost use Rattle.machine.specs.Call.{Restore, On, Save};
ghost use Rattle.outcome.specs.Outcome.{Leaves, LeavesWith};
ghost use Rattle.outcome.specs.Reply.{reply_of, text_of};
ghost use Rattle.public_listings.specs.Verdicts.{Whole};

use crate::verdict::sound_listing;
use listed_form::Listing;
use outcome::{RETURNED, Refusal, need, refusals};

pub mod on_sound;
pub mod verdict;

// The listing of the state that the store's bytes write, in the answer: so many bytes as are counted. The store is only read.
#[tactic(auto, using(outcome::proofs::Owned::unsound), unfolding(machine::specs::Call::named))]
pub fn save(s: &[u8], answer: &mut [u8]) -> Result<u64, Refusal>
    ensures { LeavesWith (On (Save answer.old)) s.now s.now answer.new (text_of result) }
{
    refusals::of_store(s)?;
    on_sound::save(s, answer)
}

// The rest of reading, of the listing of a sound state. Nothing was written before. (Length and cut
// as in opening: what is written then differs.)
fn restore_from(s: &mut [u8], l: Listing) -> Result<u64, Refusal>
    requires { Whole l.lines.text.now l.head l.lines.at }
    ensures { Leaves (Restore l.entry.lines.text.now) s.old s.new (reply_of result) }
{
    let n = need(l.head.limit as usize, l.head.places as usize);
    if s.len() < n {
        return Err(Refusal::StoreTooShort);
    }
    restoring::write_from(l, &mut s[..n]);
    Ok(RETURNED)
}

// Makes the store the tracker that the text lists. It takes any store that is long enough.
pub fn restore(s: &mut [u8], text: &[u8]) -> Result<u64, Refusal>
    ensures { Leaves (Restore text.now) s.old s.new (reply_of result) }
{
    let listing = sound_listing(text)?;
    restore_from(s, listing)
}

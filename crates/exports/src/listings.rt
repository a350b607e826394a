// Listings, for C and Rust (docs/LISTING.md). A call that is refused hands nothing out.
ghost use Rattle.machine.specs.Call.{Restore, On, Save};
ghost use Rattle.outcome.specs.Outcome.{Leaves};
ghost use Rattle.crossing.specs.Status.{numbered, HandsText};

use crossing::{hand_out, status};

// The listing of the tracker's state, in the answer: so many bytes as `written` says. The store is only read.
#[unsafe(no_mangle)]
pub extern "C" fn tracker_save(s: &[u8], answer: &mut [u8], written: &mut u64) -> u64
    ensures { HandsText (On (Save answer.old)) s.now s.now answer.new result written.old written.new }
{
    let l = public_listings::save(s, answer);
    hand_out(l, written)
}

// Makes the store the tracker that the text lists. It takes any store that is long enough, whose old bytes are not looked at; bytes past the need stay.
#[unsafe(no_mangle)]
pub extern "C" fn tracker_restore(s: &mut [u8], text: &[u8]) -> u64
    ensures { Leaves (Restore text.now) s.old s.new (numbered result 1) }
{
    status(public_listings::restore(s, text))
}

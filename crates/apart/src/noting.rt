// Parents of a place announced together, and those kept noted: a bit for each in two numbers.
ghost use Rattle.std.specs.Prelude.{◌≡◌, ◌+◌, ◌-◌, ◌≤◌, ◌<◌};
ghost use Rattle.ident.specs.Words.{hash_num};
ghost use Rattle.words.specs.Words.{words};
ghost use Rattle.places.specs.Places.{list_most};
ghost use Rattle.parenting.specs.Displacing.{reserve_of};
ghost use Rattle.apart.specs.Delayed.{delay_of, Fronts, Opens};
ghost use Rattle.apart.specs.Noting.{parent_in, hashes_at, ParentsIn, half_most, Halved, HalfIn, Noted};

use crate::SLOT;
use crate::delayed::Delayed;
use crate::parents::Parents;
use crate::slots::Note;
use machine::limits::MAX_PARENTS;
use parenting::displacing::Known;

// Half of a place's parents.
const HALF: usize = MAX_PARENTS / 2;

// Which parents of a place were kept. `spent` is a property of the tracker then: nobody can be evicted.
#[derive(Clone, Copy)]
pub struct Announced {
    pub note: Note,
    pub spent: bool,
}

// How many parents a place has.
pub fn parents_in(slot: &[u8; SLOT]) -> usize
    ensures { ParentsIn slot.now result }
{
    MAX_PARENTS.min(places::read_head(slot, 0).parents as usize)
}

// How many of n parents are noted in the first number.
pub fn first_half(n: usize) -> usize
    ensures { Halved n result }
{
    n.min(HALF)
}

// The j-th parent of a place.
pub fn parent_of(slot: &[u8; SLOT], j: usize) -> ident::Hash
    requires { j < list_most }
    ensures { hash_num result ≡ parent_in (words slot.now) j }
{
    ident::Hash::from(places::read_parent(slot, 0, j))
}

// Announces the parents from .. to while others wait; answers the bits of those kept.
fn announce_bits(
    s: &mut [u8],
    p: Parents,
    delayed: &mut Delayed,
    q: &mut Known,
    from: usize,
    to: usize,
) -> u64
    requires { Opens p.connection.number s.old (words q.old.listed.bytes) (delay_of delayed.old) (reserve_of q.old)
        × (from ≤ to) × (to ≤ from + half_most) × (to ≤ p.count) }
    ensures { HalfIn p.entry.connection.number p.entry.clock s.old s.new (words q.old.listed.bytes) (words q.new.listed.bytes)
        from (hashes_at (words p.entry.slot.now) from (to - from)) (delay_of delayed.old) (reserve_of q.old)
        (record { bits = result; delay = delay_of delayed.new; reserve = reserve_of q.new }) }
{
    let mut bits = 0;
    for j in from..to {
        let kept = delayed.announce(s, q, p.parent(j));
        bits += u64::from(kept) << (j - from);
    }
    bits
}

// Announces the parents, and notes those kept. spent: nobody can be evicted. (It picks nothing here: it is the first of what is known of the
// victims.)
pub fn announce_all(s: &mut [u8], p: Parents, delayed: &mut Delayed, spent: bool) -> Announced
    requires { Fronts s.old (delay_of delayed.old) spent }
    ensures { Noted s.old s.new (delay_of delayed.old) (delay_of delayed.new) spent p.entry.connection.number p.entry.clock
        (hashes_at (words p.entry.slot.now) 0 p.entry.count) result }
{
    let mut q = Known::nothing_listed(spent);
    let e = first_half(p.count);
    let low = announce_bits(s, p, delayed, &mut q, 0, e);
    let high = announce_bits(s, p, delayed, &mut q, e, p.count);
    delayed.close(s, &mut q, p.connection.number);
    Announced {
        note: Note { low, high },
        spent: q.spent,
    }
}

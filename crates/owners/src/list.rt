// The hashes of owners_of as they are given: 32 bytes each, tested before anything is answered of them.
ghost use Rattle.std.specs.Prelude.{◌≡◌, ◌*◌, ◌≤◌, ◌<◌, length};
ghost use Rattle.machine.specs.Owners.{ascending};
ghost use Rattle.machine.specs.Call.{owner_bytes, wrong_hashes};
ghost use Rattle.lent_lists.specs.Lists.{hashes_in};
ghost use Rattle.owners.specs.Walk.{above_last};

use machine::limits::MAX_ASKED_HASHES;

// Bytes of an owner in an answer buffer.
const OWNER_BYTES: usize = 8 * super::OWNER;

// Whether the i-th hash is above the one before it. (By `quad_less`, whose clause is of the numbers: for `<` of two hashes their order would be unfolded here.)
fn above_last(hashes: &[u8], i: usize) -> bool
    requires { (1 ≤ i) × (i < length (hashes_in hashes.now)) }
    ensures { result ≡ above_last (hashes_in hashes.now) i }
{
    let a = regions::Quad::from(lent_lists::hash_in(hashes, i - 1));
    let b = regions::Quad::from(lent_lists::hash_in(hashes, i));
    regions::quad_less(a, b)
}

fn ascends(hashes: &[u8]) -> bool
    ensures { result ≡ ascending (hashes_in hashes.now) }
{
    (1..lent_lists::hashes(hashes)).all(|i| above_last(hashes, i))
}

// Whether hashes are too many, or not in strictly ascending order.
pub fn wrong(hashes: &[u8]) -> bool
    ensures { result ≡ wrong_hashes (hashes_in hashes.now) }
{
    MAX_ASKED_HASHES < lent_lists::hashes(hashes) || !ascends(hashes)
}

// The bytes that their answer needs.
pub fn needs(hashes: &[u8]) -> usize
    ensures { result ≡ owner_bytes * length (hashes_in hashes.now) }
{
    lent_lists::hashes(hashes) * OWNER_BYTES
}

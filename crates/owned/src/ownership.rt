// owners_of, of an owner.
ghost use Rattle.machine.specs.Call.{On, OwnersOf};
ghost use Rattle.store.specs.Image.{SoundStore};
ghost use Rattle.lent_lists.specs.Lists.{hashes_in};
ghost use Rattle.crossing.specs.Status.{HandsOwners};

// Who owns each of up to 1,024 hashes, which are given in strictly ascending order, 32 bytes each: the kind (0 nobody, 1 Txid, 2 Wtxid), the connection and the deadline
// stand in the answer, 8 bytes each, least first. So many held keys as `passed` says have a hash that is not above the greatest of them. The store is only read.
#[unsafe(no_mangle)]
pub extern "C" fn tracker_owned_owners_of(
    s: &[u8],
    hashes: &[u8],
    answer: &mut [u8],
    passed: &mut u64,
) -> u64
    requires { SoundStore s.now }
    ensures { HandsOwners (On (OwnersOf (hashes_in hashes.now) answer.old)) (hashes_in hashes.now)
        s.now s.now answer.new result passed.old passed.new }
{
    let l = public_plans::on_sound::ownership::owners_of(s, hashes, answer);
    crossing::hand_out(l, passed)
}

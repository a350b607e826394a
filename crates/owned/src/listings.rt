// Listings, of an owner.
ghost use Rattle.machine.specs.Call.{On, Save};
ghost use Rattle.store.specs.Image.{SoundStore};
ghost use Rattle.crossing.specs.Status.{HandsText};

// The listing of the tracker's state, in the answer: so many bytes as `written` says. The store is only read.
#[unsafe(no_mangle)]
pub extern "C" fn tracker_owned_save(s: &[u8], answer: &mut [u8], written: &mut u64) -> u64
    requires { SoundStore s.now }
    ensures { HandsText (On (Save answer.old)) s.now s.now answer.new result written.old written.new }
{
    let l = public_listings::on_sound::save(s, answer);
    crossing::hand_out(l, written)
}

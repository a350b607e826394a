// counts, of an owner. It only reads.
ghost use Rattle.store.specs.Image.{SoundStore};
ghost use Rattle.crossing.specs.Counts.{HandsCounts};

// How many announcements the connection has, and how many requests it owns, deadlines over or not. The store is only read.
#[unsafe(no_mangle)]
pub extern "C" fn tracker_owned_counts(
    s: &[u8],
    connection: u64,
    announced: &mut u64,
    owned: &mut u64,
) -> u64
    requires { SoundStore s.now }
    ensures { HandsCounts s.now connection result announced.old announced.new owned.old owned.new }
{
    let c = public_requests::on_sound::connections::counts(s, connection);
    crossing::hand_counts(c, announced, owned)
}

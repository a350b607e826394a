// arrange, of an owner.
ghost use Rattle.words.specs.Words.{words};
ghost use Rattle.machine.specs.Call.{On, Arrange};
ghost use Rattle.store.specs.Image.{SoundStore};
ghost use Rattle.claiming.specs.Claiming.{entries_in};
ghost use Rattle.crossing.specs.Status.{HandsEntries};

// What a claim has taken, given in 112 bytes an entry, stands in the answer by ascending connection, then claim order: so many as `count` says. A t item of a
// marked request turns v for a witness connection: those of the list, which has 8 bytes for each, least first. The store is only read.
#[unsafe(no_mangle)]
pub extern "C" fn tracker_owned_arrange(
    s: &[u8],
    witnesses: &[u8],
    taken: &[u8],
    answer: &mut [u8],
    count: &mut u64,
) -> u64
    requires { SoundStore s.now }
    ensures { HandsEntries (On (Arrange (words witnesses.now) (entries_in taken.now) answer.old))
        s.now s.now answer.new result count.old count.new }
{
    let l = public_plans::on_sound::arrangements::arrange(s, witnesses, taken, answer);
    crossing::hand_out(l, count)
}

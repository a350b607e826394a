// arrange and part, for C and Rust. A call that is refused hands nothing out.
ghost use Rattle.std.specs.Prelude.{◌≡◌};
ghost use Rattle.words.specs.Words.{words};
ghost use Rattle.machine.specs.Call.{On, Arrange};
ghost use Rattle.claiming.specs.Claiming.{entries_in};
ghost use Rattle.sending.specs.Parts.{PartIs};
ghost use Rattle.crossing.specs.Status.{HandsEntries};

use crossing::hand_out;

// What a claim has taken, given in 112 bytes an entry, stands in the answer by ascending connection, then claim order: so many as `count` says. A t item of a
// marked request turns v for a witness connection: those of the list, which has 8 bytes for each, least first. The store is only read.
#[unsafe(no_mangle)]
pub extern "C" fn tracker_arrange(
    s: &[u8],
    witnesses: &[u8],
    taken: &[u8],
    answer: &mut [u8],
    count: &mut u64,
) -> u64
    ensures { HandsEntries (On (Arrange (words witnesses.now) (entries_in taken.now) answer.old))
        s.now s.now answer.new result count.old count.new }
{
    let l = public_plans::arrangements::arrange(s, witnesses, taken, answer);
    hand_out(l, count)
}

// One connection's part of an arranged list, which is given in 112 bytes an entry: `count` entries from the entry `first` on. Of a list that is not arranged it is
// some part. It takes no store, and is never refused.
#[unsafe(no_mangle)]
pub extern "C" fn tracker_part(
    list: &[u8],
    connection: u64,
    first: &mut u64,
    count: &mut u64,
) -> u64
    ensures { (result ≡ 0) × PartIs connection (entries_in list.now) first.new count.new }
{
    let p = public_plans::arrangements::part(list, connection);
    *first = p.first as u64;
    *count = p.count as u64;
    0
}

// plan and claim, of an owner.
ghost use Rattle.std.proofs.Math.Option.{none, some};
ghost use Rattle.machine.specs.Call.{On, Plan, Claim};
ghost use Rattle.store.specs.Image.{SoundStore};
ghost use Rattle.claiming.specs.Claiming.{entries_in};
ghost use Rattle.selecting.specs.Phasing.{given_keys};
ghost use Rattle.crossing.specs.Status.{HandsEntries, HandsPlan};

// Takes, in order, each entry of the checked list, which is given in 112 bytes each, whose hash is unowned and that is still what plan would choose for it. Those
// that are taken stand in the answer: so many as `taken` says.
#[unsafe(no_mangle)]
pub extern "C" fn tracker_owned_claim(
    s: &mut [u8],
    clock: u64,
    checked: &[u8],
    answer: &mut [u8],
    taken: &mut u64,
) -> u64
    requires { SoundStore s.old }
    ensures hands_entries { HandsEntries (On (Claim clock (entries_in checked.now) answer.old))
        s.old s.new answer.new result taken.old taken.new }
    ensures sound { SoundStore s.new }
{
    let l = public_plans::on_sound::plans::claim(s, clock, checked, answer);
    crossing::hand_out(l, taken)
}

// Plans over all keys after the ready cursor and round to it. What it selects stands in the answer in 112 bytes an entry: so many as `count` says, of as many keys
// as `considered` says. `next` is the least time later than the clock at which a key that nobody owns may be ready or an owner be late, 0 if there is none.
#[unsafe(no_mangle)]
pub extern "C" fn tracker_owned_plan(
    s: &mut [u8],
    clock: u64,
    answer: &mut [u8],
    considered: &mut u64,
    count: &mut u64,
    next: &mut u64,
) -> u64
    requires { SoundStore s.old }
    ensures hands_plan { HandsPlan (On (Plan clock none answer.old))
        s.old s.new answer.new result considered.old considered.new count.old count.new
        next.old next.new }
    ensures sound { SoundStore s.new }
{
    let p = public_plans::on_sound::plans::plan(s, clock, answer);
    crossing::hand_plan(p, considered, count, next)
}

// The same over the keys that are given in 40 bytes each; the ready cursor stays.
#[unsafe(no_mangle)]
pub extern "C" fn tracker_owned_plan_given(
    s: &mut [u8],
    clock: u64,
    given: &[u8],
    answer: &mut [u8],
    considered: &mut u64,
    count: &mut u64,
    next: &mut u64,
) -> u64
    requires { SoundStore s.old }
    ensures hands_plan { HandsPlan (On (Plan clock (some (given_keys given.now)) answer.old))
        s.old s.new answer.new result considered.old considered.new count.old count.new
        next.old next.new }
    ensures sound { SoundStore s.new }
{
    let p = public_plans::on_sound::plans::plan_given(s, clock, given, answer);
    crossing::hand_plan(p, considered, count, next)
}

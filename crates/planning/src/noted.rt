// The first phase of a plan's scan: the parents that expiring kept, place by place, as they are noted. Each level hands the store, the clock, the numbers and the
// scan down to `selecting::consider` beside what it chooses by, which differs: a struct of the four would hold two lends, and be taken apart at each level.
// m is where the store's bytes of rows end (`apart`), first the bytes of the first place, i a place and e how many of them have notes: fewer than `first` and s have.
ghost use Rattle.std.specs.Prelude.{◌≡◌, [], ◌+◌, ◌-◌, ◌*◌, ◌≤◌, ◌<◌, length, take};
ghost use Rattle.words.specs.Words.{words};
ghost use Rattle.places.specs.Places.{list_most};
ghost use Rattle.machine.specs.Limits.{max_request_checks};
ghost use Rattle.store.specs.Shown.{half, Kept};
ghost use Rattle.apart.specs.Apart.{Room};
ghost use Rattle.apart.specs.Noting.{hashes_at, picked, picked_in};
ghost use Rattle.selecting.specs.Phasing.{Roomy, Scans};
ghost use Rattle.planning.specs.Noting.{PlaceScans, NotedScans, NotedPhased};

use apart::SLOT;
use machine::clock::Clock;

// Considers those of the parents from .. to of a place whose bits are set.
fn consider_bits(
    s: &mut [u8],
    clock: Clock,
    slot: &[u8; SLOT],
    from: usize,
    to: usize,
    bits: u64,
    picks: &mut [usize],
    v: selecting::Scan,
) -> selecting::Scan
    requires { Kept s.old × (max_request_checks < length picks.old) × Roomy v × ((from ≤ to) × (to ≤ list_most)) × (v.considered + (to - from) ≤ half) }
    ensures { Scans s.old s.new picks.old picks.new clock.time (λ st. picked (hashes_at (words slot.now) from (to - from)) bits)
        (λ st. []) v result (to - from) }
{
    let mut w = v;
    let mut left = bits;
    for j in from..to {
        if w.full {
            return w;
        }
        if left % 2 == 1 {
            let h = apart::noting::parent_of(slot, j);
            w = selecting::consider(s, clock, ident::Key::from(ident::Txid(h)), picks, w);
        }
        left /= 2;
    }
    w
}

// Considers those of the c parents of a place that are noted.
fn consider_place(
    s: &mut [u8],
    clock: Clock,
    slot: &[u8; SLOT],
    c: usize,
    note: apart::slots::Note,
    picks: &mut [usize],
    v: selecting::Scan,
) -> selecting::Scan
    requires { Kept s.old × (max_request_checks < length picks.old) × Roomy v × (c ≤ list_most) × (v.considered + list_most ≤ half) }
    ensures { Scans s.old s.new picks.old picks.new clock.time (λ st. picked_in (hashes_at (words slot.now) 0 c) note.low note.high)
        (λ st. []) v result list_most }
{
    let e = apart::noting::first_half(c);
    let x = consider_bits(s, clock, slot, 0, e, note.low, picks, v);
    consider_bits(s, clock, slot, e, c, note.high, picks, x)
}

// Considers those of the parents of the i-th place that are noted.
fn consider_noted(
    s: &mut [u8],
    m: usize,
    first: &[u8; SLOT],
    i: usize,
    clock: Clock,
    picks: &mut [usize],
    v: selecting::Scan,
) -> selecting::Scan
    requires { Room s.old first.now m (i + 1) × Kept (take m s.old) × (max_request_checks < length picks.old) × Roomy v × (v.considered + list_most ≤ half) }
    ensures { PlaceScans s.old s.new first.now m i picks.old picks.new clock.time v result }
{
    let note = apart::slots::note_at(s, m, first, i);
    if note == apart::slots::Note::NONE {
        return v;
    }
    let mut slot = [0; SLOT];
    apart::slots::load(s, m, first, i, &mut slot);
    let c = apart::noting::parents_in(&slot);
    consider_place(&mut s[..m], clock, &slot, c, note, picks, v)
}

// Considers the parents that are noted of the first e places.
fn keys_noted(
    s: &mut [u8],
    m: usize,
    first: &[u8; SLOT],
    e: usize,
    clock: Clock,
    picks: &mut [usize],
    v: selecting::Scan,
) -> selecting::Scan
    requires { Room s.old first.now m e × Kept (take m s.old) × (max_request_checks < length picks.old) × Roomy v × (v.considered + list_most * e ≤ half) }
    ensures { NotedScans s.old s.new first.now m e e picks.old picks.new clock.time v result }
{
    let mut w = v;
    for i in 0..e {
        if w.full {
            return w;
        }
        w = consider_noted(s, m, first, i, clock, picks, w);
    }
    w
}

// The phase over them.
pub fn phase_noted(
    s: &mut [u8],
    m: usize,
    first: &[u8; SLOT],
    e: usize,
    clock: Clock,
    picks: &mut [usize],
    v: selecting::Scan,
) -> selecting::Scan
    requires { Room s.old first.now m e × Kept (take m s.old) × (max_request_checks < length picks.old) × (v.chosen ≤ max_request_checks)
        × (v.considered + list_most * e ≤ half) }
    ensures { NotedPhased s.old s.new first.now m e picks.old picks.new clock.time v result }
{
    keys_noted(s, m, first, e, clock, picks, v.opened())
}

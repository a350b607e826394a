// When a key's candidates are ready (document 02, request c).
ghost use Rattle.std.specs.Prelude.{◌≡◌, map, ◌≤◌};
ghost use Rattle.machine.specs.Later as machine;
ghost use Rattle.machine.specs.Later.{wait_in};
ghost use Rattle.store.specs.Flat.{Flat};
ghost use Rattle.store.specs.Gather.{candidate_at};
ghost use Rattle.store.specs.Image.{Shows};
ghost use Rattle.store.specs.Shown.{rows_in, Shown};
ghost use Rattle.announcing.specs.Evicts.{part};
ghost use Rattle.choosing.specs.Choosing.{option_of};

// The lesser of two times, where there are any.
pub fn earlier(a: Option<u64>, b: Option<u64>) -> Option<u64>
    ensures { option_of result ≡ machine.earlier (option_of a) (option_of b) }
{
    match (a, b) {
        (Some(x), Some(y)) => Some(x.min(y)),
        _ => a.or(b),
    }
}

// The time t, if it is later than the clock.
pub fn later(clock: u64, t: u64) -> Option<u64>
    ensures { option_of result ≡ machine.later clock t }
{
    (clock < t).then_some(t)
}

// The earliest ready time among the rows of x, where none of them is ready.
pub fn wait_in(s: &[u8], clock: u64, x: requests::Window) -> Option<u64>
    requires { Shown s.now × (x.to ≤ rows_in s.now) }
    ensures { (f : Flat) → Shows s.now f → option_of result ≡ wait_in clock (map candidate_at (part x.from x.to f.rows)) }
{
    let mut w = None;
    for i in (x.from..x.to).rev() {
        let r = store::rows::row_at(s, i);
        if r.ready <= clock {
            return None;
        }
        w = earlier(Some(r.ready), w);
    }
    w
}

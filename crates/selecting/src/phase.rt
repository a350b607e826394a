// The phases of a plan's scan (document 01, "plan"): the given keys, or all keys after the ready cursor and round to it. "After a key, a
// phase stops at 1,024 selected".
ghost use Rattle.std.specs.Prelude.{◌≡◌, [], ◌+◌, ◌-◌, ◌≤◌, ◌<◌, length};
ghost use Rattle.machine.specs.Limits.{max_request_checks};
ghost use Rattle.machine.specs.Sweep.{round};
ghost use Rattle.machine.specs.Table.{keys};
ghost use Rattle.store.specs.Flat.{rows_of};
ghost use Rattle.store.specs.Shown.{rows_in, half, Kept};
ghost use Rattle.sweeping.specs.Batches.{keys_over};
ghost use Rattle.selecting.specs.Phasing.{key_count, given_keys, Roomy, Scans, Phased};

use machine::clock::Clock;
use store::rows::Window;

// ---- given keys

// How many keys the bytes hold.
fn keys(b: &[u8]) -> usize
    ensures { result ≡ key_count b.now }
{
    b.len() / lent_lists::KEY
}

// Considers the keys that the bytes hold, in order.
fn keys_given(
    s: &mut [u8],
    clock: Clock,
    given: &[u8],
    picks: &mut [usize],
    v: crate::Scan,
) -> crate::Scan
    requires { Kept s.old × (max_request_checks < length picks.old) × Roomy v × (v.considered + key_count given.now ≤ half) }
    ensures { Scans s.old s.new picks.old picks.new clock.time (λ st. given_keys given.now) (λ st. []) v result (key_count given.now) }
{
    let count = keys(given);
    let mut w = v;
    for i in 0..count {
        if w.full {
            return w;
        }
        w = crate::consider(s, clock, lent_lists::key_at(given, i), picks, w);
    }
    w
}

// A phase over the keys that the bytes hold.
pub fn phase_given(
    s: &mut [u8],
    clock: Clock,
    given: &[u8],
    picks: &mut [usize],
    v: crate::Scan,
) -> crate::Scan
    requires { Kept s.old × (max_request_checks < length picks.old) × (v.chosen ≤ max_request_checks) × (v.considered + key_count given.now ≤ half) }
    ensures { Phased s.old s.new picks.old picks.new clock.time (λ st. given_keys given.now) v result (key_count given.now) }
{
    keys_given(s, clock, given, picks, v.opened())
}

// ---- all keys

// Considers the keys of a window's rows, each at its last row.
fn keys_over(
    s: &mut [u8],
    clock: Clock,
    rows: Window,
    picks: &mut [usize],
    v: crate::Scan,
) -> crate::Scan
    requires { Kept s.old × (max_request_checks < length picks.old) × Roomy v × (rows.to ≤ rows_in s.old) × (v.considered + rows.to ≤ half) }
    ensures { Scans s.old s.new picks.old picks.new clock.time (λ st. keys_over rows.from rows.to (rows_of st.table)) (λ st. []) v result (rows.to - rows.from) }
{
    let mut w = crate::Walk {
        scan: v,
        txid_end: 0,
        wtxid_end: 0,
    };
    for i in rows.from..rows.to {
        if w.scan.full {
            return w.scan;
        }
        let r = store::rows::row_at(s, i);
        if sweeping::batch::ends_key(s, r, i + 1, rows.to) {
            w = crate::consider_next(s, clock, announcing::evict::key_of(r), picks, w);
        }
    }
    w.scan
}

// A phase over all keys after the ready cursor and round to it.
pub fn phase_round(s: &mut [u8], clock: Clock, picks: &mut [usize], v: crate::Scan) -> crate::Scan
    requires { Kept s.old × (max_request_checks < length picks.old) × (v.chosen ≤ max_request_checks) × (v.considered + rows_in s.old ≤ half) }
    ensures { Phased s.old s.new picks.old picks.new clock.time (λ st. round st.ready_cursor (keys st.table)) v result (rows_in s.old) }
{
    let c = cursors::cursor_at(s, store::layout::READY);
    let from = sweeping::batch::after_cursor(s, c);
    let n = store::head::rows(s);
    let x = keys_over(s, clock, Window { from, to: n }, picks, v.opened());
    keys_over(s, clock, Window { from: 0, to: from }, picks, x)
}

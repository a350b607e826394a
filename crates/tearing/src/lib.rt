// teardown_package_claims on the bytes of a sound store (document 01, "The request machine").
//
// The packages are counted; one pass over the rows takes those of their owners out and readies those beside them, one over the places takes the packages
// out. The rows come before them, since the places say which keys these are. In between the bytes write rows and their tally (`Shorn`); entries of
// the tally that lose their last row stay for as long as the rows are passed over (`Ebbs`).
#![tactic(auto)]

ghost use Rattle.std.specs.Prelude.{◌≡◌, ℕ, ◌+◌, ◌*◌, ◌≤◌, ◌<◌, length, get_or, set};
ghost use Rattle.words.specs.Words.{words};
ghost use Rattle.places.specs.Places.{Place, place_size, place_words};
ghost use Rattle.package_stages.specs.Dead.{filter};
ghost use Rattle.regions.specs.declared.Row.{Row};
ghost use Rattle.machine.specs.State.{State};
ghost use Rattle.machine.specs.Sound.{Sound};
ghost use Rattle.store.specs.Flat.{Flat};
ghost use Rattle.store.specs.Image.{Shows, Writes};
ghost use Rattle.store.specs.Shown.{rows_in, held_places_in, with_rows, with_places, Turns, Shown, Kept};
ghost use Rattle.tearing.specs.Places.{RowTorn};
ghost use Rattle.tearing.specs.Torn.{RowsTorn, is_package, flagged, Cleared};

use places::{AWAITING, FLAG};
use store::layout;
use store::rows::Window;

pub mod idle;
pub mod packaged;

// ---- rows

// How many rows stay of those looked at, and the place that the pass has come to.
#[derive(Clone, Copy)]
struct Stay {
    rows: usize,
    reached: packaged::Reached,
}

// The i-th row: put behind the m that stay, unless its connection owns a request with a package; ready at clock beside such an owner.
fn tear_row(s: &mut [u8], m: usize, i: usize, clock: u64, known: packaged::Reached) -> Stay
    requires { Shown s.old × (m ≤ i) × (i < rows_in s.old) }
    ensures { RowTorn s.old s.new clock m i result.rows known result.reached }
{
    let r = store::rows::row_at(s, i);
    let found = packaged::find(s, r, known);
    let reached = found.reached;
    if !found.packaged {
        announcing::dropping::keep_row(s, m, i, r);
        return Stay {
            rows: m + 1,
            reached,
        };
    }
    if r.owns() {
        idle::count_off(s, r.conn, 1);
        return Stay { rows: m, reached };
    }
    let ready = regions::Row { ready: clock, ..r };
    store::parts::set(s, m, ready);
    Stay {
        rows: m + 1,
        reached,
    }
}

// The rows of the owners of packages go; those beside them are ready at clock.
fn tear_rows(s: &mut [u8], clock: u64)
    requires { Kept s.old }
    ensures { (st : State) → Sound st → Writes s.old st → RowsTorn s.new st clock }
{
    let n = store::head::rows(s);
    let first = packaged::reach(s, 0);
    let mut k = Stay {
        rows: 0,
        reached: first,
    };
    for i in 0..n {
        k = tear_row(s, k.rows, i, clock, k.reached);
    }
    let rest = Window {
        from: k.rows,
        to: n,
    };
    store::rows::drop_rows(s, rest);
    idle::drop_idle(s);
}

// ---- places

// How many places are packages'. (By the word of the stage, any in a shown store: a package's are those from AWAITING on. They are counted before the rows are
// passed, which then finds the stages in the processor's cache: here no read waits for another.)
fn count_packages(s: &[u8]) -> usize
    requires { Shown s.now }
    ensures { (f : Flat) → Shows s.now f → result ≡ length (filter is_package f.places) }
{
    let n = store::head::held_places(s);
    let mut c = 0;
    for i in 0..n {
        let p = store::package_places::place_at(s, i);
        c += usize::from(AWAITING <= p.stage);
    }
    c
}

// The places of packages go, and the dead: those with the flag alone stay. (As `package_stages::dead::drop_dead`, by another test, for the reason that stands there.)
fn drop_packages(s: &mut [u8])
    requires { Shown s.old }
    ensures { Turns s.old s.new (λ f. with_places (filter flagged f.places) f) }
{
    let n = store::head::held_places(s);
    let part = layout::places_part(s);
    let m = places::clearing::retain(
        &mut s[part],
        n,
        |p| -> bool
            requires { length p.now ≡ 8 * place_size }
            ensures { (x : Place) → words p.now ≡ place_words x → result ≡ flagged x }
        { places::read_head(p, 0).stage == FLAG },
    );
    words::put(s, layout::HELD_PLACES, m as u64);
}

// Every package goes, whatever its stage, and its owner leaves the request; no parents are announced. Answers how many packages these were.
pub fn teardown_package_claims(s: &mut [u8], clock: u64) -> usize
    requires { Kept s.old }
    ensures { Cleared s.old s.new result clock }
{
    let c = count_packages(s);
    tear_rows(s, clock);
    drop_packages(s);
    c
}

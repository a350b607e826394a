// Announcements of a connection beside those of it that wait: each is tested on the store as it is and on the rows that wait, and
// waits with them if it comes in without another's giving way.
ghost use Rattle.std.specs.Prelude.{◌≡◌, ◌+◌, ◌*◌, ◌≤◌, leb, length};
ghost use Rattle.std.proofs.Math.Option.{some};
ghost use Rattle.ident.specs.Number.{key_of, place};
ghost use Rattle.ident.specs.Words.{key_num, item_num};
ghost use Rattle.words.specs.Words.{words};
ghost use Rattle.regions.specs.Rows.{row_size};
ghost use Rattle.machine.specs.State.{State};
ghost use Rattle.machine.specs.Table.{held};
ghost use Rattle.machine.specs.Sound.{Sound};
ghost use Rattle.store.specs.Image.{Writes};
ghost use Rattle.store.specs.Shown.{Kept};
ghost use Rattle.requests.specs.Changes.{candidate_of, Spans};
ghost use Rattle.gathering.specs.Aside.{space, OpenIn, FaresIn, RowsOrFare, RowIn, SetAside};

use crate::region;
use machine::limits::MAX_PEER_ANNOUNCEMENTS;
use regions::Row;
use regions::listed::Records;
use requests::windows::Windows;
use requests::{Window, windows};

// As many rows can wait.
pub const SPACE: usize = 512;

// How an announcement fares beside those that wait.
#[derive(Clone, Copy, Debug, PartialEq, Eq)]
pub enum Fare {
    // It changes nothing.
    Nothing,
    // It waits with them.
    Waits,
    // It is to be announced by itself.
    Alone,
}

// With the m that wait L announcements are held.
#[tactic(auto, using(announcing::proofs::Lent::kept_long, announcing::proofs::Lent::kept_few))]
pub fn full(s: &[u8], m: usize) -> bool
    requires { Kept s.now × (m ≤ space) }
    ensures { (st : State) → Sound st → Writes s.now st → result ≡ leb st.limit (held st.table + m) }
{
    store::head::rows(s) + m >= store::head::limit(s)
}

// The rows of the hash of k, unless the connection n has as many announcements as it may with those that wait, or one at this hash, under either kind.
pub fn open_rows(s: &[u8], new: Records<Row>, k: ident::Key, n: u64) -> Option<Windows>
    requires { Kept s.now × (new.count ≤ space) }
    ensures { OpenIn s.now (words new.entry.bytes.now) new.entry.count (key_num k) n result }
{
    let f = requests::figures(s, n);
    if f.held >= MAX_PEER_ANNOUNCEMENTS - new.count as u64 {
        return None;
    }
    let h = k.hash;
    let w = windows::windows_of(s, h);
    if windows::is_candidate_in(s, h, w, n) {
        return None;
    }
    if region::waits_at(new, h) {
        return None;
    }
    Some(w)
}

// How the announcement c at k fares beside those that wait; where it is to wait, the rows of k. The tests that need no search come first.
fn fares(s: &[u8], new: Records<Row>, k: ident::Key, c: requests::Candidate) -> Result<Window, Fare>
    requires { Kept s.now × (new.count ≤ space) }
    ensures { RowsOrFare s.now (key_num k) (FaresIn s.now (words new.entry.bytes.now) new.entry.count (key_num k) (candidate_of c)) result }
{
    if new.count >= SPACE {
        return Err(Fare::Alone);
    }
    if full(s, new.count) {
        if c.preferred {
            return Err(Fare::Alone);
        }
        return Err(Fare::Nothing);
    }
    let Some(w) = open_rows(s, new, k, c.connection) else {
        return Err(Fare::Nothing);
    };
    if announcing::keyed::crowded_in(s, k.hash, w) {
        if c.preferred {
            return Err(Fare::Alone);
        }
        return Err(Fare::Nothing);
    }
    Ok(w.of_kind(k.kind))
}

// The row of c, which is to wait under the key k, whose rows are those of w.
#[tactic(auto, using(requests::proofs::Keeping::kept_shown))]
pub fn waiting_row(s: &[u8], k: ident::Key, w: Window, c: requests::Candidate) -> regions::Row
    requires { Kept s.now × Spans s.now (place (key_num k)) w.from w.to }
    ensures { RowIn s.now (key_num k) (candidate_of c) result }
{
    let key = regions::Key::from(k);
    let mark = requests::mark_in(s, w.from, w.to);
    requests::new_row(key, c, mark)
}

// Announces c at k beside the m that wait, unless it is to be announced by itself.
fn set_aside_at(s: &[u8], new: &mut [u8], m: usize, k: ident::Key, c: requests::Candidate) -> Fare
    requires { Kept s.now × (8 * (row_size * space) ≤ length new.old) × (m ≤ space) }
    ensures { SetAside s.now (words new.old) (words new.new) m (some (key_num k)) (candidate_of c) result }
{
    match fares(s, Records::new(new, m), k, c) {
        Ok(rows) => {
            region::put_in(new, m, waiting_row(s, k, rows, c));
            Fare::Waits
        }
        Err(fare) => fare,
    }
}

// The same at the key of c's item. An item of any other kind than t, v and w has no key.
pub fn set_aside(s: &[u8], new: &mut [u8], m: usize, c: requests::Candidate) -> Fare
    requires { Kept s.now × (8 * (row_size * space) ≤ length new.old) × (m ≤ space) }
    ensures { SetAside s.now (words new.old) (words new.new) m (key_of (item_num c.item)) (candidate_of c) result }
{
    let Some(k) = ident::key_of(c.item) else {
        return Fare::Nothing;
    };
    set_aside_at(s, new, m, k, c)
}

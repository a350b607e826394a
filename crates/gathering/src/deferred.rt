// Announcements of a connection where L are held, with the store left as it is: each that comes in waits beside it, and the next of the
// victims listed is to go for it, later and with the others.
ghost use Rattle.std.specs.Prelude.{◌+◌, ◌*◌, ◌≤◌, ◌<◌, ◌≡◌, length};
ghost use Rattle.std.proofs.Math.Option.{some};
ghost use Rattle.ident.specs.Number.{key_of};
ghost use Rattle.ident.specs.Words.{hash_num, key_num, item_num};
ghost use Rattle.words.specs.Words.{words};
ghost use Rattle.regions.specs.Rows.{row_size};
ghost use Rattle.store.specs.Shown.{Kept};
ghost use Rattle.requests.specs.Changes.{candidate_of};
ghost use Rattle.requests.specs.Windows.{Windowed};
ghost use Rattle.announcing.specs.Falls.{VictimsIn};
ghost use Rattle.gathering.specs.Aside.{space, RowsOrFare};
ghost use Rattle.gathering.specs.Deferring.{ListedAt, SuitedIn, Deferred};

use crate::beside::{Fare, SPACE};
use crate::{beside, region};
use announcing::foremost::Victims;
use regions::Row;
use regions::listed::Records;
use requests::windows::Windows;
use requests::{Window, windows};

// Whether one of the first n victims listed is at the hash h.
pub fn listed_at(s: &[u8], top: &Victims, n: usize, h: ident::Hash) -> bool
    requires { Kept s.now × VictimsIn s.now (words top.now.bytes) top.now.count × (n ≤ top.now.count) }
    ensures { ListedAt s.now (words top.now.bytes) top.now.count n (hash_num h) result }
{
    (0..n).any(|i| lent_lists::same_hash(ident::Hash::from(top.get(s, i).hash), h))
}

// The same at a hash whose rows are those of w: where it has none, no victim is looked at.
fn is_of_listed(s: &[u8], top: &Victims, n: usize, h: ident::Hash, w: Windows) -> bool
    requires { Kept s.now × VictimsIn s.now (words top.now.bytes) top.now.count × (n ≤ top.now.count) × Windowed s.now (hash_num h) w }
    ensures { ListedAt s.now (words top.now.bytes) top.now.count n (hash_num h) result }
{
    if windows::candidates_in(s, h, w) == 0 {
        return false;
    }
    listed_at(s, top, n, h)
}

// How the announcement c at k fares beside those that wait, if the candidate of the row y, the next of the victims, goes for
// it; where it is to wait, the rows of k. At the hash of a victim that is to go the store says too much, and so do the counts of the connection if the victim is its own.
fn suits(
    s: &[u8],
    new: Records<Row>,
    top: &Victims,
    k: ident::Key,
    c: requests::Candidate,
    y: regions::Row,
) -> Result<Window, Fare>
    requires { Kept s.now × VictimsIn s.now (words top.now.bytes) top.now.count × (new.count ≤ space) × (new.count < top.now.count) }
    ensures { RowsOrFare s.now (key_num k) (SuitedIn s.now (words new.entry.bytes.now) (words top.now.bytes) new.entry.count top.now.count (key_num k) (candidate_of c) y) result }
{
    if new.count >= SPACE {
        return Err(Fare::Alone);
    }
    if !c.preferred {
        return Err(Fare::Alone);
    }
    let h = k.hash;
    let Some(w) = beside::open_rows(s, new, k, c.connection) else {
        if listed_at(s, top, new.count + 1, h) {
            return Err(Fare::Alone);
        }
        return Err(Fare::Nothing);
    };
    if is_of_listed(s, top, new.count + 1, h, w) {
        return Err(Fare::Alone);
    }
    if announcing::keyed::crowded_in(s, h, w) {
        if announcing::evict::victim_in(s, h, w).is_some() {
            return Err(Fare::Alone);
        }
        return Err(Fare::Nothing);
    }
    if y.conn == c.connection {
        return Err(Fare::Alone);
    }
    let q = y.hash;
    let v = ident::Hash::from(q);
    if region::waits_at(new, v) {
        return Err(Fare::Alone);
    }
    Ok(w.of_kind(k.kind))
}

// Announces c at k beside the d that wait, for the d-th of the victims listed in `top`. If it waits, that one is to go; it may
// have to be announced by itself.
fn defer_at(
    s: &[u8],
    new: &mut [u8],
    d: usize,
    top: &Victims,
    k: ident::Key,
    c: requests::Candidate,
) -> Fare
    requires { Kept s.now × VictimsIn s.now (words top.now.bytes) top.now.count × (8 * (row_size * space) ≤ length new.old) × (d ≤ space) }
    ensures { Deferred s.now (words new.old) (words new.new) (words top.now.bytes) d top.now.count (some (key_num k)) (candidate_of c) result }
{
    if d >= top.count {
        return Fare::Alone;
    }
    let y = top.get(s, d);
    match suits(s, Records::new(new, d), top, k, c, y) {
        Ok(rows) => {
            region::put_in(new, d, beside::waiting_row(s, k, rows, c));
            Fare::Waits
        }
        Err(fare) => fare,
    }
}

// The same at the key of c's item. An item of any other kind than t, v and w has no key.
pub fn defer(s: &[u8], new: &mut [u8], d: usize, top: &Victims, c: requests::Candidate) -> Fare
    requires { Kept s.now × VictimsIn s.now (words top.now.bytes) top.now.count × (8 * (row_size * space) ≤ length new.old) × (d ≤ space) }
    ensures { Deferred s.now (words new.old) (words new.new) (words top.now.bytes) d top.now.count (key_of (item_num c.item)) (candidate_of c) result }
{
    let Some(k) = ident::key_of(c.item) else {
        return Fare::Nothing;
    };
    defer_at(s, new, d, top, k, c)
}

// A parent is announced among those that wait and the owners that are to go, where what comes of it can be told from the store as it is.
ghost use Rattle.std.specs.Prelude.{◌≡◌, ◌≤◌, false};
ghost use Rattle.ident.specs.Words.{hash_num};
ghost use Rattle.words.specs.Words.{words};
ghost use Rattle.machine.specs.Limits.{max_announcements};
ghost use Rattle.store.specs.Shown.{rows_in, Kept};
ghost use Rattle.requests.specs.Changes.{Tells};
ghost use Rattle.requests.specs.Windows.{Windowed};
ghost use Rattle.gathering.specs.Aside.{space};
ghost use Rattle.postponing.specs.Pending.{Living, Pends, FullWith, GoesIn, Considers, Among};

use gathering::rows::Waiting;
use machine::limits::MAX_PEER_ANNOUNCEMENTS;
use parenting::parent::Parent;
use requests::windows::Windows;
use requests::{Window, windows};

// How a parent fares.
#[derive(Clone, Copy, Debug, PartialEq, Eq)]
pub enum Reply {
    // It waits, or its connection has adopted what it brings.
    Kept,
    // It changes nothing.
    Refused,
    // It is to be announced by itself, once those that wait have come in and those that are to go have gone.
    Alone,
}

// Whether an owner that is to go is among the rows of a window.
fn goes_in(s: &[u8], w: Window) -> bool
    requires { Kept s.now × (w.to ≤ rows_in s.now) }
    ensures { GoesIn s.now w.from w.to result }
{
    match package_stages::owner_in(s, w) {
        None => false,
        Some(owner) => owner.deadline == 0,
    }
}

// Whether an owner at the hash h, whose rows are those of w, is to go.
fn goes_at(s: &[u8], h: ident::Hash, w: Windows) -> bool
    requires { Kept s.now × Windowed s.now (hash_num h) w }
    ensures { result ≡ false → Tells s.now (λ t. Living t (hash_num h)) }
{
    if goes_in(s, w.txid) {
        return true;
    }
    goes_in(s, w.wtxid)
}

// Whether L announcements are held with the d that wait, and without the c that are to go.
#[tactic(auto, using(announcing::proofs::Lent::kept_long, announcing::proofs::Lent::kept_few))]
fn full(s: &[u8], d: usize, c: usize) -> bool
    requires { Kept s.now × (d ≤ space) × (c ≤ max_announcements) }
    ensures { FullWith s.now d c result }
{
    store::head::rows(s) + d >= store::head::limit(s) + c
}

// How a parent fares at an open hash, the rows of which are those of w, if its connection has not announced it.
fn consider(s: &[u8], new: &Waiting, c: usize, spent: bool, w: Windows, p: Parent) -> Reply
    requires { Pends s.now (words new.now.bytes) new.now.count c × Windowed s.now (hash_num p.hash) w }
    ensures { Considers p.connection.number p.clock (hash_num p.hash) p.priority s.now (words new.now.bytes) new.now.count c spent result }
{
    if announcing::keyed::crowded_in(s, p.hash, w) {
        return match announcing::evict::victim_in(s, p.hash, w) {
            None => Reply::Refused,
            Some(_) => Reply::Alone,
        };
    }
    if full(s, new.count, c) {
        return if spent { Reply::Refused } else { Reply::Alone };
    }
    let f = requests::figures(s, p.connection.number);
    if f.held >= MAX_PEER_ANNOUNCEMENTS - new.count as u64 {
        return Reply::Alone;
    }
    Reply::Kept
}

// Announces the parent beside those that wait and the c owners that are to go. `spent` is a property of the tracker: nobody can be evicted.
pub fn announce_among(s: &mut [u8], new: &mut Waiting, c: usize, spent: bool, p: Parent) -> Reply
    requires { Pends s.old (words new.old.bytes) new.old.count c }
    ensures { Among p.connection.number p.clock (hash_num p.hash) p.priority s.old s.new (words new.old.bytes) (words new.new.bytes) new.old.count new.new.count c spent result }
{
    let h = p.hash;
    if !new.open_at(h) {
        return Reply::Alone;
    }
    let w = windows::windows_of(s, h);
    if goes_at(s, h, w) {
        return Reply::Alone;
    }
    if windows::is_candidate_in(s, h, w, p.connection.number) {
        announcing::parents::announce_parent(s, p.connection, p.clock, h, p.priority as u64);
        return Reply::Kept;
    }
    let reply = consider(s, new, c, spent, w, p);
    if reply == Reply::Kept {
        let k = ident::Key::from(ident::Txid(h));
        new.set_among(s, k, w.txid, p.offered());
    }
    reply
}

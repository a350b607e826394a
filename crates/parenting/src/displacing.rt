// Parents where L are held: each that comes in waits beside the store, and the next of the victims listed is to go for it. The victims are listed in one
// pass for all parents that are left, go in one pass, and those that wait come in by one; where nobody can be evicted no row is scanned for a victim.
ghost use Rattle.std.specs.Prelude.{◌≡◌, true, ◌≤◌};
ghost use Rattle.ident.specs.Words.{hash_num};
ghost use Rattle.words.specs.Words.{words};
ghost use Rattle.store.specs.Shown.{Kept};
ghost use Rattle.gathering.specs.Counted.{then_wait};
ghost use Rattle.parenting.specs.Waiting.{Waits};
ghost use Rattle.parenting.specs.Displacing.{reserve_of, unlisted, Lacks, Restocked, ShutOut, Unknown, Unaided};
ghost use Rattle.parenting.specs.Displacing.{Supplies, AdoptsListed, Settled, Finished, FurtherIn, FurtherAlone, DefersWith, SpentIn};

use crate::joining;
use crate::parent::Parent;
use announcing::foremost::Victims;
use gathering::beside::Fare;
use gathering::rows::Waiting;
use ident::connection::Connection;
use machine::limits::MAX_PEER_ANNOUNCEMENTS;
use regions::listed::Records;
use requests::windows;

// What is known of the victims: the first that give way are listed, of which as many as parents wait are to go. `spent` is a property of the tracker by itself,
// whatever is listed: nobody can be evicted.
#[derive(Drop)]
pub struct Known {
    pub listed: Victims,
    pub spent: bool,
}

// With fewer parents left a list costs more than it spares.
const FEW: usize = 4;

// Whether the hash h would come in for the connection n, where it has the room of a victim. (A guess, by which it is told whether a list is worth while.)
fn fits(s: &[u8], h: ident::Hash, n: u64) -> bool
    requires { Kept s.now }
{
    let f = requests::figures(s, n);
    if f.held >= MAX_PEER_ANNOUNCEMENTS {
        return false;
    }
    let w = windows::windows_of(s, h);
    !windows::is_candidate_in(s, h, w, n) && !announcing::keyed::crowded_in(s, h, w)
}

impl Known {
    // No victim is listed. (`spent` is kept, and picks nothing; no `From` would say of what the bool is.)
    pub fn nothing_listed(spent: bool) -> Self
        ensures { reserve_of result ≡ unlisted spent }
    {
        Known {
            listed: Victims::none(),
            spent,
        }
    }

    // Whether victims are to be listed for the parents that are left, of which p is the next: nothing is known of them, nobody waits, and L are held.
    fn is_lacking(&self, s: &[u8], new: &Waiting, p: Parent) -> bool
        requires { Kept s.now }
        ensures { Lacks s.now new.now.count (reserve_of self.now) result }
    {
        if p.left() < FEW || new.count > 0 || self.spent || self.listed.count > 0 {
            return false;
        }
        gathering::beside::full(s, 0) && fits(s, p.hash, p.connection.number)
    }

    // Lists victims for the parents that are left, of which p is the next, if they are to be listed.
    fn restock(&mut self, s: &[u8], new: &Waiting, p: Parent)
        requires { Kept s.now }
        ensures { Restocked p.connection.number s.now (words new.now.bytes) (words self.old.listed.bytes) (words self.new.listed.bytes) new.now.count (reserve_of self.old)
            (reserve_of self.new) }
    {
        if !self.is_lacking(s, new, p) {
            return;
        }
        self.listed.list(s, p.left());
        self.spent = false;
        if self.listed.count == 0 {
            self.spent = announcing::evict::victim_anywhere(s).is_none();
        }
    }
}

// Whether the connection n has announced the hash h, or one of those that wait is at it.
fn is_known(s: &[u8], new: &Waiting, h: ident::Hash, n: u64) -> bool
    requires { Kept s.now }
    ensures { Unknown s.now (words new.now.bytes) new.now.count (hash_num h) n result }
{
    requests::is_candidate(s, h, n)
        || gathering::region::waits_at(Records::new(&new.bytes, new.count), h)
}

// Announces the parent beside those that wait for victims. One that the connection has announced is to adopt what is there, by itself.
fn defer_with(s: &[u8], new: &mut Waiting, q: &Known, p: Parent) -> Fare
    requires { Supplies p.connection.number s.now (words new.old.bytes) (words q.now.listed.bytes) new.old.count (reserve_of q.now) }
    ensures { DefersWith p.connection.number p.clock (hash_num p.hash) p.priority s.now (words new.old.bytes) (words new.new.bytes)
        (words q.now.listed.bytes) new.old.count (reserve_of q.now) result × (new.new.count ≡ then_wait new.old.count result) }
{
    if q.listed.count == 0 {
        return Fare::Alone;
    }
    let fare = new.defer(s, &q.listed, p.offered());
    if fare == Fare::Nothing && is_known(s, new, p.hash, p.connection.number) {
        return Fare::Alone;
    }
    fare
}

// The victims listed for those that wait go, and these come in; where none is listed they wait on.
fn settle(s: &mut [u8], new: &mut Waiting, q: &mut Known, n: u64)
    requires { Supplies n s.old (words new.old.bytes) (words q.old.listed.bytes) new.old.count (reserve_of q.old) }
    ensures { Settled n s.old s.new (words new.old.bytes) (words new.new.bytes) (words q.old.listed.bytes) new.old.count new.new.count (reserve_of q.old)
        × (reserve_of q.new ≡ unlisted q.old.spent) }
{
    if q.listed.count == 0 {
        return;
    }
    gathering::going::go(s, &q.listed, new.count);
    joining::let_in(s, new, n);
    q.listed.count = 0;
}

// Whether L are held and the connection n has not announced the hash h: it comes in only for a victim.
fn shut_out(s: &[u8], h: ident::Hash, n: u64) -> bool
    requires { Kept s.now }
    ensures { ShutOut s.now (hash_num h) n result }
{
    if requests::is_candidate(s, h, n) {
        return false;
    }
    gathering::beside::full(s, 0)
}

// Announces one parent where nobody can be evicted: with L held it changes nothing, unless the connection has announced its hash.
fn announce_unaided(s: &mut [u8], n: Connection, clock: u64, h: ident::Hash, priority: u64) -> bool
    requires { Kept s.old }
    ensures { Unaided s.old s.new n.number clock (hash_num h) priority result }
{
    if shut_out(s, h, n.number) {
        return false;
    }
    announcing::parents::announce_parent(s, n, clock, h, priority)
}

// Those that wait come in; then the parent is announced, where nobody can be evicted.
fn announce_spent(s: &mut [u8], new: &mut Waiting, p: Parent) -> bool
    requires { Waits p.connection.number s.old (words new.old.bytes) new.old.count }
    ensures { SpentIn p.connection.number p.clock (hash_num p.hash) p.priority s.old s.new (words new.old.bytes) (words new.new.bytes) new.old.count result
        × (new.new.count ≡ 0) }
{
    joining::let_in(s, new, p.connection.number);
    announce_unaided(s, p.connection, p.clock, p.hash, p.priority as u64)
}

// Whether a victim would be looked for in vain: L are held with those that wait, and nobody can be evicted.
fn is_hopeless(s: &[u8], new: &Waiting, q: &Known) -> bool
    requires { Kept s.now }
    ensures { result ≡ true → q.now.spent ≡ true }
{
    if !q.spent {
        return false;
    }
    gathering::beside::full(s, new.count)
}

// Announces the parent beside those that wait, where no victim is listed.
fn announce_unlisted(s: &mut [u8], new: &mut Waiting, q: &Known, p: Parent) -> bool
    requires { Waits p.connection.number s.old (words new.old.bytes) new.old.count }
    ensures { FurtherAlone p.connection.number p.clock (hash_num p.hash) p.priority s.old s.new (words new.old.bytes) (words new.new.bytes) new.old.count
        (unlisted q.now.spent) (record { kept = result; waiting = new.new.count; reserve = unlisted q.now.spent }) }
{
    if is_hopeless(s, new, q) {
        return announce_spent(s, new, p);
    }
    joining::announce_next(s, new, p)
}

// What the parent brings is adopted in place, if its connection has announced its hash, at which none of those that wait is and none of the victims listed:
// the former wait on, and the latter stay listed.
fn adopt_listed(s: &mut [u8], new: &Waiting, q: &Known, p: Parent) -> bool
    requires { Supplies p.connection.number s.old (words new.now.bytes) (words q.now.listed.bytes) new.now.count (reserve_of q.now) }
    ensures { AdoptsListed p.connection.number p.clock (hash_num p.hash) p.priority s.old s.new (words new.now.bytes) (words q.now.listed.bytes)
        new.now.count (reserve_of q.now) result }
{
    if q.listed.count == 0 {
        return false;
    }
    if !joining::adoptable(s, new, p.hash, p.connection.number) {
        return false;
    }
    if gathering::deferred::listed_at(s, &q.listed, q.listed.count, p.hash) {
        return false;
    }
    announcing::parents::announce_parent(s, p.connection, p.clock, p.hash, p.priority as u64);
    true
}

// Announces the parent by itself: it is adopted where those that wait do so on, or they come in first.
fn announce_apart(s: &mut [u8], new: &mut Waiting, q: &mut Known, p: Parent) -> bool
    requires { Supplies p.connection.number s.old (words new.old.bytes) (words q.old.listed.bytes) new.old.count (reserve_of q.old) }
    ensures { FurtherIn p.connection.number p.clock (hash_num p.hash) p.priority s.old s.new (words new.old.bytes) (words new.new.bytes)
        (words q.old.listed.bytes) (words q.new.listed.bytes) new.old.count (reserve_of q.old) (record { kept = result; waiting = new.new.count; reserve = reserve_of q.new }) }
{
    if adopt_listed(s, new, q, p) {
        return true;
    }
    settle(s, new, q, p.connection.number);
    announce_unlisted(s, new, q, p)
}

// Announces the parent beside those that wait, and says whether it was kept.
pub fn announce_further(s: &mut [u8], new: &mut Waiting, q: &mut Known, p: Parent) -> bool
    requires { Supplies p.connection.number s.old (words new.old.bytes) (words q.old.listed.bytes) new.old.count (reserve_of q.old) }
    ensures { FurtherIn p.connection.number p.clock (hash_num p.hash) p.priority s.old s.new (words new.old.bytes) (words new.new.bytes)
        (words q.old.listed.bytes) (words q.new.listed.bytes) new.old.count (reserve_of q.old) (record { kept = result; waiting = new.new.count; reserve = reserve_of q.new }) }
{
    q.restock(s, new, p);
    match defer_with(s, new, q, p) {
        Fare::Nothing => false,
        Fare::Waits => true,
        Fare::Alone => announce_apart(s, new, q, p),
    }
}

// Those that wait come in, and their victims go.
pub fn finish(s: &mut [u8], new: &mut Waiting, q: &mut Known, n: u64)
    requires { Supplies n s.old (words new.old.bytes) (words q.old.listed.bytes) new.old.count (reserve_of q.old) }
    ensures { Finished n s.old s.new (words new.old.bytes) (words q.old.listed.bytes) new.old.count (reserve_of q.old) × (q.new.spent ≡ q.old.spent) }
{
    settle(s, new, q, n);
    joining::let_in(s, new, n);
}

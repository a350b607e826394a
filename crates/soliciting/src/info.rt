// solicit_package_info on the bytes of a sound store (document 01, "solicit_package_info").
ghost use Rattle.std.specs.Prelude.{ℕ, ◌+◌, ◌≤◌, ◌<◌, ◌≡◌, ◌&&◌, List, [], ltb, eqb, length};
ghost use Rattle.ident.specs.Number.{wtxid};
ghost use Rattle.ident.specs.Words.{hash_num};
ghost use Rattle.lent_lists.specs.Lists.{hashes_in};
ghost use Rattle.machine.specs.Fail.{dedup};
ghost use Rattle.machine.specs.Limits.{max_in_flight, max_parents, request_lifetime};
ghost use Rattle.machine.specs.State.{State, limits_of};
ghost use Rattle.machine.specs.Sound.{Sound};
ghost use Rattle.machine.specs.Table.{at, change, owned_by, owned_at};
ghost use Rattle.machine.specs.Package as machine;
ghost use Rattle.store.specs.Image.{Writes};
ghost use Rattle.store.specs.Shown.{places_in, held_places_in, Kept};
ghost use Rattle.requests.specs.Changes.{candidate_of, Makes, Tells};
ghost use Rattle.announcing.specs.Answers.{Answered};
ghost use Rattle.soliciting.specs.Solicits.{Keeps, MayOwn, Opened, given, Room};

use ident::connection::Connection;
use machine::clock::Clock;
use machine::limits::{MAX_PEER_IN_FLIGHT, REQUEST_LIFETIME};

// "Announces w, preferred, priority 0, ready now" (`announcing::parents::offered` is a parent's, of another kind and priority.)
fn soliciting(n: u64, h: ident::Hash, clock: u64) -> requests::Candidate
    ensures { candidate_of result ≡ machine.soliciting n (hash_num h) clock }
{
    let item = ident::Item {
        kind: ident::ItemKind::WTx,
        hash: h,
    };
    requests::Candidate {
        connection: n,
        item,
        ready: clock,
        preferred: true,
        priority: 0,
    }
}

// Nobody owns the hash, under either kind, and n owns fewer requests than it may.
fn may_own(s: &[u8], n: u64, h: ident::Hash) -> bool
    requires { Kept s.now }
    ensures { Tells s.now (λ t. result ≡ (eqb (owned_at (hash_num h) t) 0 && ltb (owned_by n t) max_in_flight)) }
{
    let a = package_stages::request_at(s, ident::Key::from(ident::Txid(h)));
    let b = package_stages::request_at(s, ident::Key::from(ident::Wtxid(h)));
    if a.owner.is_some() || b.owner.is_some() {
        return false;
    }
    let f = requests::figures(s, n);
    f.owned < MAX_PEER_IN_FLIGHT
}

// Whether solicit_package_info would reply 1, and so take a place.
pub fn would_solicit(s: &[u8], n: u64, subject: ident::Wtxid, clock: u64) -> bool
    requires { Kept s.now }
    ensures { (hs : List ℕ) (st : State) → Sound st → Writes s.now st → result ≡ (machine.solicit (limits_of st) n (hash_num subject.0) hs clock st.table).reply }
{
    if !may_own(s, n, subject.0) {
        return false;
    }
    let k = ident::Key::from(subject);
    if requests::holds(s, k, n) {
        return true;
    }
    announcing::keyed::would_announce(s, k, soliciting(n, subject.0, clock))
}

// The candidate n becomes the owner of the request at the Wtxid key with hash h, and the request gets the flag.
fn own_flagged(s: &mut [u8], n: u64, h: ident::Hash, clock: Clock)
    requires { Keeps s.old (MayOwn n (hash_num h)) × (held_places_in s.old < places_in s.old) }
    ensures { Makes s.old s.new (MayOwn n (hash_num h)) (change (wtxid (hash_num h)) (machine.solicited n (clock.time + request_lifetime) [])) }
{
    let k = ident::Key::from(ident::Wtxid(h));
    requests::own(s, k, n, clock.time + REQUEST_LIFETIME);
    package_stages::open_info(s, h);
}

// Stores the parents of the request, repeats dropped; it has the flag, and no parents yet.
fn add_parents(s: &mut [u8], h: ident::Hash, parents: &[u8])
    requires { Keeps s.old (λ t. Opened (at (wtxid (hash_num h)) t)) × (length (hashes_in parents.now) ≤ max_parents) }
    ensures { Makes s.old s.new (λ t. Opened (at (wtxid (hash_num h)) t)) (change (wtxid (hash_num h)) (given (dedup (hashes_in parents.now)))) }
{
    let count = lent_lists::hashes(parents);
    for i in 0..count {
        if !lent_lists::occurs_before(parents, i) {
            let p = lent_lists::hash_in(parents, i);
            package_stages::add_parent(s, h, p);
        }
    }
}

// There is room for one more place, unless the reply is 0.
pub fn solicit_package_info(
    s: &mut [u8],
    n: Connection,
    subject: ident::Wtxid,
    parents: &[u8],
    clock: Clock,
) -> bool
    requires { Kept s.old × (length (hashes_in parents.now) ≤ max_parents) × Room s.old n.number (hash_num subject.0) (hashes_in parents.now) clock.time }
    ensures { Answered s.old s.new result (λ m t. machine.solicit m n.number (hash_num subject.0) (hashes_in parents.now) clock.time t) }
{
    if !may_own(s, n.number, subject.0) {
        return false;
    }
    let k = ident::Key::from(subject);
    announcing::keyed::announce_at(s, k, soliciting(n.number, subject.0, clock.time));
    if !requests::holds(s, k, n.number) {
        return false;
    }
    own_flagged(s, n.number, subject.0, clock);
    add_parents(s, subject.0, parents);
    true
}

// The connection that leaves owns a request: it fails there (an Enqueued package stays), and the parents are announced for every
// candidate that is left.
//
// Key, connection and clock are arguments of their own, as document 01 gives them to each of these steps: the caller has them apart, and no step keeps them.
// The answer u is longer than its keys: how many stand in it, c, goes beside it. The connection is n.
#![tactic(auto)]

ghost use Rattle.std.specs.Prelude.{◌≡◌, ◌≤◌, true, is_some, [], length};
ghost use Rattle.ident.specs.Words.{key_num};
ghost use Rattle.machine.specs.Limits.{max_parents};
ghost use Rattle.machine.specs.State.{owner_is};
ghost use Rattle.machine.specs.Table.{at};
ghost use Rattle.machine.specs.Fail.{announce_parents, parents_for};
ghost use Rattle.machine.specs.Fail as machine;
ghost use Rattle.machine.specs.Leave.{drop_at_key};
ghost use Rattle.store.specs.Shown.{Kept};
ghost use Rattle.lent_lists.specs.Lists.{hashes_in};
ghost use Rattle.requests.specs.Changes.{Makes, Tells};
ghost use Rattle.handing.specs.Hands.{eased};
ghost use Rattle.merging.specs.Merges.{InOrder};
ghost use Rattle.handing.specs.Hands.{conns_of, Peers, announce_for, Roomy, KeysMerged, Silent, KeyWaits};

use ident::connection::Connection;
use lent_lists::{KEY, KEYS, LIST};
use machine::limits::MAX_ALTERNATES;
use store::rows::Window;

// Copies the connections of the candidates of the request at k to the front of `conns`, and gives that part of it. (By the index: the invariant is of the first i of both, where
// a zip with `iter_mut` would have one of what it yielded and of what is left to write.)
#[tactic(auto, using(requests::proofs::Keeping::kept_shown))]
fn copy_conns<'a>(s: &[u8], k: ident::Key, conns: &'a mut [u64; MAX_ALTERNATES]) -> &'a [u64]
    requires { Kept s.now }
    ensures { Tells s.now (λ t. result.now ≡ conns_of (at (key_num k) t).candidates) }
{
    let key = regions::Key::from(k);
    let w = requests::window_of(s, key);
    let from = w.from;
    let n = w.len();
    for i in 0..n {
        let r = store::rows::row_at(s, from + i);
        conns[i] = r.conn;
    }
    &conns[..n]
}

// Announces the parents for the connection n, and puts the keys of those kept in order among the first c of u. Answers how many
// keys there are then. (u is lent longer than its c keys, since more go behind these: merging takes the two so, and a slice of c keys has
// no room to grow.)
fn announce_for(
    s: &mut [u8],
    n: Connection,
    clock: u64,
    list: &[u8],
    u: &mut [u8],
    c: usize,
) -> usize
    requires { Kept s.old × (length (hashes_in list.now) ≤ max_parents) × InOrder u.old c × Roomy s.old u.old c (λ m t. announce_parents m n.number clock (hashes_in list.now) t) }
    ensures { KeysMerged s.old s.new u.old u.new c result (λ m t. announce_parents m n.number clock (hashes_in list.now) t) }
{
    let mut keys = [0; KEYS];
    let kept = parenting::listed::announce_parents(s, n, clock, list, &mut keys);
    merging::merge(u, c, &keys[..kept * KEY])
}

// The same for each of some connections.
fn announce_each(
    s: &mut [u8],
    clock: u64,
    list: &[u8],
    conns: &[u64],
    u: &mut [u8],
    c: usize,
) -> usize
    requires { Kept s.old × (length (hashes_in list.now) ≤ max_parents) × Peers conns.now × InOrder u.old c
        × Roomy s.old u.old c (λ m t. announce_for m clock (hashes_in list.now) conns.now t) }
    ensures { KeysMerged s.old s.new u.old u.new c result (λ m t. announce_for m clock (hashes_in list.now) conns.now t) }
{
    let mut r = c;
    for &number in conns {
        r = announce_for(s, Connection { number }, clock, list, u, r);
    }
    r
}

// The owner n of the request at k fails there (an Enqueued package stays), and the parents are announced for every candidate left;
// the keys of those kept are put in order among the first c of u. Answers how many keys there are then.
pub fn drop_owned(
    s: &mut [u8],
    k: ident::Key,
    n: Connection,
    clock: u64,
    u: &mut [u8],
    c: usize,
) -> usize
    requires { Kept s.old × Tells s.old (λ t. owner_is n.number (at (key_num k) t).owner ≡ true) × InOrder u.old c × Roomy s.old u.old c (λ m t. drop_at_key m n.number clock (key_num k) t) }
    ensures { KeysMerged s.old s.new u.old u.new c result (λ m t. drop_at_key m n.number clock (key_num k) t) }
{
    let mut list = [0; LIST];
    let parents = failing::parents::parents_for(s, k, n, &mut list);
    failing::failed(s, k, n.number, clock);
    let mut room = [0; MAX_ALTERNATES];
    let conns = copy_conns(s, k, &mut room);
    announce_each(s, clock, parents, conns, u, c)
}

// ---- a key that waits to be cut with others

// Whether a connection owns a request, and the row from which to look for its next one, which serves in either case.
#[derive(Clone, Copy)]
struct Lookup {
    is_owner: bool,
    next: usize,
}

// Whether the connection n owns the request at k, by a search.
fn search(s: &[u8], k: ident::Key, n: Connection) -> Lookup
    requires { Kept s.now }
    ensures { Tells s.now (λ t. result.is_owner ≡ owner_is n.number (at (key_num k) t).owner) }
{
    let r = package_stages::request_at(s, k);
    Lookup {
        is_owner: r.is_owned_by(n.number),
        next: r.rows.to,
    }
}

// The same by the first row of n from `guess` on, if that is one of the key: where keys are asked for in order, that row is the next one of n.
#[tactic(auto, using(announcing::proofs::Lent::kept_long, requests::proofs::Keeping::kept_shown))]
fn look_up(s: &[u8], k: ident::Key, n: Connection, guess: Option<usize>) -> Lookup
    requires { Kept s.now }
    ensures { Tells s.now (λ t. result.is_owner ≡ owner_is n.number (at (key_num k) t).owner) }
{
    let rows = store::head::rows(s);
    let from = guess.unwrap_or(rows);
    if from < rows {
        let rest = Window { from, to: rows };
        if let Some(i) = store::rows::find_row(s, rest, n.number) {
            let r = store::rows::row_at(s, i);
            if regions::Key::from(r) == regions::Key::from(k) {
                return Lookup {
                    is_owner: r.owns(),
                    next: i + 1,
                };
            }
        }
    }
    search(s, k, n)
}

// Whether the connection n has no parents to hand on at k.
fn is_childless(s: &[u8], k: ident::Key, n: Connection) -> bool
    requires { Kept s.now }
    ensures { result ≡ true → Tells s.now (λ t. parents_for n.number (at (key_num k) t) ≡ []) }
{
    let mut list = [0; LIST];
    failing::parents::parents_for(s, k, n, &mut list).is_empty()
}

// Whether the request at k has one candidate.
fn is_single(s: &[u8], k: ident::Key) -> bool
    requires { Kept s.now }
    ensures { result ≡ true → Tells s.now (λ t. length (at (key_num k) t).candidates ≡ 1) }
{
    let key = regions::Key::from(k);
    let w = requests::window_of(s, key);
    w.len() == 1
}

// Whether nothing is to be announced when the owner n leaves k: it has no parents to hand on, or nobody to hand them to.
fn is_silent(s: &[u8], k: ident::Key, n: Connection) -> bool
    requires { Kept s.now }
    ensures { result ≡ true → Tells s.now (λ t. owner_is n.number (at (key_num k) t).owner ≡ true → Silent n.number (at (key_num k) t)) }
{
    is_single(s, k) || is_childless(s, k, n)
}

// The owner n gives the request at k back in place; it stays a candidate there, and leaves the other kind of the hash. Every other
// candidate of the hash gets the ready time clock.
fn ease(s: &mut [u8], k: ident::Key, n: u64, clock: u64)
    requires { Kept s.old × Tells s.old (λ t. machine.releasable n (at (key_num k) t) ≡ true) }
    ensures { Makes s.old s.new (λ t. Unit {0}) (eased n clock (key_num k)) }
{
    let o = ident::same_hash_other_kind(k);
    failing::unclaim(s, k, n);
    requests::ready_all(s, k, clock);
    failing::leave(s, o, n, clock);
}

// Whether n may wait to be cut at k: it does not own the request there, or has nothing to announce and gives it back. If so, the row from
// which to look for its next row.
pub fn waits(
    s: &mut [u8],
    k: ident::Key,
    n: Connection,
    clock: u64,
    guess: Option<usize>,
) -> Option<usize>
    requires { Kept s.old }
    ensures { KeyWaits n.number clock (key_num k) s.old s.new (is_some result) }
{
    let found = look_up(s, k, n, guess);
    if !found.is_owner {
        return Some(found.next);
    }
    if !is_silent(s, k, n) {
        return None;
    }
    if !failing::releasable(s, k, n.number) {
        return None;
    }
    ease(s, k, n.number, clock);
    Some(found.next)
}

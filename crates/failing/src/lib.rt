// failed, unclaim, forget, failed_with_parents, release_package and package info on the bytes of a sound store (document 01, "The request machine").
//
// Key, connection and clock are arguments of their own, as document 01 gives them to each of these calls: the caller has them apart, and no call keeps them.
#![tactic(auto)]

ghost use Rattle.std.specs.Prelude.{◌≡◌, ◌+◌, ◌*◌, ◌≤◌, true, false, length, MatchOption};
ghost use Rattle.ident.specs.Words.{hash_num, key_num};
ghost use Rattle.machine.specs.Limits.{max_parents};
ghost use Rattle.machine.specs.State.{unowned, owner_is};
ghost use Rattle.machine.specs.Table.{at, change};
ghost use Rattle.machine.specs.Announce.{cut};
ghost use Rattle.machine.specs.Call.{key_bytes};
ghost use Rattle.machine.specs.Fail as machine;
ghost use Rattle.machine.specs.Package.{failed_with_parents, info_owned, failed_package_info, package_info_owner, enqueued_by, release_package};
ghost use Rattle.store.specs.Shown.{Kept};
ghost use Rattle.lent_lists.specs.Lists.{hashes_in};
ghost use Rattle.requests.specs.Changes.{Makes, Tells};
ghost use Rattle.package_stages.specs.Changes.{closed};
ghost use Rattle.announcing.specs.Answers.{Answered, KeysListed};
ghost use Rattle.failing.specs.Changes.{led};

use ident::connection::Connection;
use lent_lists::{KEY, LIST};
use package_stages::Stage;

pub mod parents;

// Whether the connection n owns the request at k, and its package is not Enqueued.
pub fn releasable(s: &[u8], k: ident::Key, n: u64) -> bool
    requires { Kept s.now }
    ensures { Tells s.now (λ t. result ≡ machine.releasable n (at (key_num k) t)) }
{
    let r = package_stages::request_at(s, k);
    r.is_owned_by(n) && r.stage != Some(Stage::Enqueued)
}

// Flag, package and parents of the request at k go; a Txid key has none.
fn close(s: &mut [u8], k: ident::Key)
    requires { Kept s.old }
    ensures { Makes s.old s.new (λ t. Unit {0}) (change (key_num k) closed) }
{
    if k.kind == ident::Kind::Wtxid {
        package_stages::close(s, k.hash);
    }
}

// Owner, flag, package and parents of the request at k go; n is the owner.
pub fn clear(s: &mut [u8], k: ident::Key, n: u64)
    requires { Kept s.old }
    ensures { Makes s.old s.new (λ t. owner_is n (at (key_num k) t).owner ≡ true) (change (key_num k) unowned) }
{
    close(s, k);
    requests::disown(s, k, n);
}

// The candidate of n, if it has one, leaves the request at k, which n does not own.
fn withdraw(s: &mut [u8], k: ident::Key, n: u64)
    requires { Kept s.old }
    ensures { Makes s.old s.new (λ t. owner_is n (at (key_num k) t).owner ≡ false) (cut (key_num k) n) }
{
    if requests::holds(s, k, n) {
        requests::cut(s, k, n);
    }
}

// The connection n, which does not own the request at k, leaves it; every remaining candidate there gets the ready time clock.
pub fn leave(s: &mut [u8], k: ident::Key, n: u64, clock: u64)
    requires { Kept s.old × Tells s.old (λ t. owner_is n (at (key_num k) t).owner ≡ false) }
    ensures { Makes s.old s.new (λ t. Unit {0}) (change (key_num k) (machine.left n clock)) }
{
    withdraw(s, k, n);
    requests::ready_all(s, k, clock);
}

// The owner n of the request at k leaves both kinds of the hash: owner, flag, package and parents go with it.
fn leave_both(s: &mut [u8], k: ident::Key, n: u64, clock: u64)
    requires { Kept s.old × Tells s.old (λ t. owner_is n (at (key_num k) t).owner ≡ true) }
    ensures { Makes s.old s.new (λ t. Unit {0}) (machine.leaves (key_num k) n clock) }
{
    let o = ident::same_hash_other_kind(k);
    clear(s, k, n);
    leave(s, k, n, clock);
    leave(s, o, n, clock);
}

// The owner n of the request at k failed to deliver; says whether it owned it, with no Enqueued package.
pub fn failed(s: &mut [u8], k: ident::Key, n: u64, clock: u64) -> bool
    requires { Kept s.old }
    ensures { Answered s.old s.new result (λ m t. machine.failed (key_num k) n clock t) }
{
    if !releasable(s, k, n) {
        return false;
    }
    leave_both(s, k, n, clock);
    true
}

// The owner n gives the request at k back: owner, flag, package and parents go, and n stays a candidate.
pub fn unclaim(s: &mut [u8], k: ident::Key, n: u64)
    requires { Kept s.old }
    ensures { Makes s.old s.new (λ t. Unit {0}) (machine.unclaim (key_num k) n) }
{
    if releasable(s, k, n) {
        clear(s, k, n);
    }
}

// Owner, flag, package and parents of the request at k go, whoever the owner is.
fn release(s: &mut [u8], k: ident::Key)
    requires { Kept s.old }
    ensures { Makes s.old s.new (λ t. Unit {0}) (change (key_num k) unowned) }
{
    let r = package_stages::request_at(s, k);
    if let Some(owner) = r.owner {
        clear(s, k, owner.connection);
    }
}

// The request at k goes, with its place.
pub fn forget(s: &mut [u8], k: ident::Key)
    requires { Kept s.old }
    ensures { Makes s.old s.new (λ t. Unit {0}) (machine.forget (key_num k)) }
{
    release(s, k);
    requests::whole::drop_all(s, k);
}

// ---- package info

// The connection that is asked for package info of the request at k, and in time at clock.
pub fn package_info_owner(s: &[u8], k: ident::Key, clock: u64) -> Option<Connection>
    requires { Kept s.now }
    ensures { Tells s.now (λ t. MatchOption result (package_info_owner (key_num k) clock t ≡ 0) (λ n. n.number ≡ package_info_owner (key_num k) clock t)) }
{
    let r = package_stages::request_at(s, k);
    if r.stage != Some(Stage::Flagged) {
        return None;
    }
    let owner = r.owner.filter(|o| clock < o.deadline)?;
    Some(Connection {
        number: owner.connection,
    })
}

// Whether the connection n is asked for package info of the request at k.
pub fn info_owned(s: &[u8], k: ident::Key, n: u64) -> bool
    requires { Kept s.now }
    ensures { Tells s.now (λ t. result ≡ info_owned n (at (key_num k) t)) }
{
    let r = package_stages::request_at(s, k);
    r.stage == Some(Stage::Flagged) && r.is_owned_by(n)
}

// failed, where the connection n is asked for package info.
pub fn failed_package_info(s: &mut [u8], k: ident::Key, n: u64, clock: u64) -> bool
    requires { Kept s.old }
    ensures { Answered s.old s.new result (λ m t. failed_package_info (key_num k) n clock t) }
{
    if !info_owned(s, k, n) {
        return false;
    }
    failed(s, k, n, clock)
}

// ---- parents

// Announces the parents, and lists in `out` the key k and behind it the keys of those kept. Answers how many keys these are.
fn announce_behind(
    s: &mut [u8],
    k: ident::Key,
    n: Connection,
    clock: u64,
    list: &[u8],
    out: &mut [u8],
) -> usize
    requires { Kept s.old × (length (hashes_in list.now) ≤ max_parents) × (key_bytes * (length (hashes_in list.now) + 1) ≤ length out.old) }
    ensures { KeysListed s.old s.new out.old out.new result (λ m t. led (key_num k) (machine.announce_parents m n.number clock (hashes_in list.now) t)) }
{
    lent_lists::put_key(out, 0, k);
    let c = parenting::listed::announce_parents(s, n, clock, list, &mut out[KEY..]);
    c + 1
}

// failed, and the parents of the package announced for the same connection. Lists in `out` the key and the parents' keys, if the
// failing was carried out; answers how many these are.
pub fn failed_with_parents(
    s: &mut [u8],
    k: ident::Key,
    n: Connection,
    clock: u64,
    out: &mut [u8],
) -> usize
    requires { Kept s.old × (key_bytes * (max_parents + 1) ≤ length out.old) }
    ensures { KeysListed s.old s.new out.old out.new result (λ m t. failed_with_parents m (key_num k) n.number clock t) }
{
    let mut list = [0; LIST];
    let parents = parents::parents_for(s, k, n, &mut list);
    if !failed(s, k, n.number, clock) {
        return 0;
    }
    announce_behind(s, k, n, clock, parents, out)
}

// ---- release_package

// Whether the connection n owns the request at k, with an Enqueued package.
fn enqueued_by(s: &[u8], k: ident::Key, n: u64) -> bool
    requires { Kept s.now }
    ensures { Tells s.now (λ t. result ≡ enqueued_by n (at (key_num k) t)) }
{
    let r = package_stages::request_at(s, k);
    r.is_owned_by(n) && r.stage == Some(Stage::Enqueued)
}

// An Enqueued package of the connection n is given up: n leaves the hash, and the parents are announced for it. Lists in `out` the key
// and the parents' keys, if there was such a package; answers how many these are.
pub fn release_package(
    s: &mut [u8],
    n: Connection,
    subject: ident::Wtxid,
    clock: u64,
    out: &mut [u8],
) -> usize
    requires { Kept s.old × (key_bytes * (max_parents + 1) ≤ length out.old) }
    ensures { KeysListed s.old s.new out.old out.new result (λ m t. release_package m n.number (hash_num subject.0) clock t) }
{
    let k = ident::Key::from(subject);
    if !enqueued_by(s, k, n.number) {
        return 0;
    }
    let mut list = [0; LIST];
    let parents = parents::parents_for(s, k, n, &mut list);
    leave_both(s, k, n.number, clock);
    announce_behind(s, k, n, clock, parents, out)
}

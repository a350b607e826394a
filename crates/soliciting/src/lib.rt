// The package calls on the bytes of a sound store (document 01, "claim_package", "begin_package_resolution"). Their arguments stay apart, as the calls have them: a
// struct would be made for one call and taken apart in it.
#![tactic(auto)]

ghost use Rattle.std.specs.Prelude.{◌≡◌, ◌<◌, ◌&&◌, eqb, Some, length, get_or};
ghost use Rattle.ident.specs.Number.{wtxid};
ghost use Rattle.ident.specs.Words.{hash_num};
ghost use Rattle.lent_lists.specs.Lists.{hashes_in};
ghost use Rattle.machine.specs.Table.{at};
ghost use Rattle.machine.specs.Package as machine;
ghost use Rattle.places.specs.Places.{list_most};
ghost use Rattle.store.specs.Shown.{held_places_in, Kept};
ghost use Rattle.requests.specs.Changes.{Tells};
ghost use Rattle.package_stages.specs.Changes.{stage_word, stage_of, wtxids_of, combined_of, ReadAt};
ghost use Rattle.announcing.specs.Answers.{Answered};

use machine::limits::MAX_WTXIDS;
use package_stages::Stage;

pub mod info;

// Whether the request at the Wtxid key of `subject` has the stage, and n owns it with the deadline still to come.
fn owned_at(s: &[u8], n: u64, subject: ident::Wtxid, clock: u64, stage: Stage) -> bool
    requires { Kept s.now }
    ensures { Tells s.now (λ t. result ≡ (machine.live_owner n clock (at (wtxid (hash_num subject.0)) t).owner && eqb
        (stage_of (at (wtxid (hash_num subject.0)) t).info (at (wtxid (hash_num subject.0)) t).«package») (stage_word (Some stage)))) }
{
    let k = ident::Key::from(subject);
    let r = package_stages::request_at(s, k);
    r.is_owned_by(n) && r.is_alive(clock) && r.stage == Some(stage)
}

// The flag becomes a package, Awaiting, with 1 to 100 wtxids.
pub fn claim_package(
    s: &mut [u8],
    n: u64,
    subject: ident::Wtxid,
    combined: ident::Hash,
    wtxids: &[u8],
    clock: u64,
) -> bool
    requires { Kept s.old }
    ensures { Answered s.old s.new result (λ m t. machine.claim_package n (hash_num subject.0) (hash_num combined) (hashes_in wtxids.now) clock t) }
{
    let count = lent_lists::hashes(wtxids);
    if count == 0 || count > MAX_WTXIDS {
        return false;
    }
    if !owned_at(s, n, subject, clock, Stage::Flagged) {
        return false;
    }
    package_stages::claim(s, subject.0, combined, wtxids);
    true
}

// Whether the j-th wtxid of the package at the i-th place is the j-th of those given.
fn same_wtxid(s: &[u8], i: usize, wtxids: &[u8], j: usize) -> bool
    requires { Kept s.now × (i < held_places_in s.now) × (j < list_most) × (j < length (hashes_in wtxids.now)) × ReadAt s.now i (λ q. j < length (wtxids_of q.«package»)) }
    ensures { ReadAt s.now i (λ q. result ≡ eqb (get_or (wtxids_of q.«package») j 0) (get_or (hashes_in wtxids.now) j 0)) }
{
    let a = package_stages::wtxid_at(s, i, j);
    let b = lent_lists::hash_in(wtxids, j);
    lent_lists::same_hash(a, b)
}

// Whether the i-th place has a package with this combined hash and these wtxids, in this order.
fn same_package(s: &[u8], i: usize, combined: ident::Hash, wtxids: &[u8]) -> bool
    requires { Kept s.now × (i < held_places_in s.now) }
    ensures { ReadAt s.now i (λ q. result ≡ (eqb (combined_of q.«package») (hash_num combined) && machine.same_list (wtxids_of q.«package») (hashes_in wtxids.now))) }
{
    let c = package_stages::combined_at(s, i);
    if !lent_lists::same_hash(c, combined) {
        return false;
    }
    let count = package_stages::wtxids(s, i);
    if lent_lists::hashes(wtxids) != count {
        return false;
    }
    (0..count).all(|j| same_wtxid(s, i, wtxids, j))
}

// The package, Awaiting until now, is Enqueued.
pub fn begin_package_resolution(
    s: &mut [u8],
    n: u64,
    subject: ident::Wtxid,
    combined: ident::Hash,
    wtxids: &[u8],
    clock: u64,
) -> bool
    requires { Kept s.old }
    ensures { Answered s.old s.new result (λ m t. machine.begin_resolution n (hash_num subject.0) (hash_num combined) (hashes_in wtxids.now) clock t) }
{
    if !owned_at(s, n, subject, clock, Stage::Awaiting) {
        return false;
    }
    let Ok(i) = package_stages::seek(s, subject.0) else {
        unreachable!("a request with a stage has a place");
    };
    if !same_package(s, i, combined, wtxids) {
        return false;
    }
    package_stages::enqueue(s, subject.0);
    true
}

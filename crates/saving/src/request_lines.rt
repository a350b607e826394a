// The line of a request: key, owner, flag, package, parents, mark.
ghost use Rattle.std.specs.Prelude.{ℕ, ◌≡◌, ◌+◌, ◌≤◌, ◌<◌, [], length, get_or, Some};
ghost use Rattle.ident.specs.Words.{hash_num, key_num};
ghost use Rattle.places.specs.Places.{list_most};
ghost use Rattle.machine.specs.State.{with_candidates};
ghost use Rattle.machine.specs.Table.{at as the};
ghost use Rattle.machine.specs.Listing.{short, hash_fields, list_fields, maybe_fields, package_fields, RequestLine};
ghost use Rattle.store.specs.Shown.{held_places_in, Kept};
ghost use Rattle.requests.specs.Changes.{Tells};
ghost use Rattle.package_stages.specs.Changes.{stage_word, stage_of, wtxids_of, ReadAt, RequestAt};
ghost use Rattle.lines.specs.Text.{with_commas};
ghost use Rattle.saving.specs.Laid.{Lays, LaysHashes, farthest, hashes_room, package_room, parents_room, place_room, request_room, place_texts, line_text};

use crate::fields::{next_bool, next_hash, next_number, next_owner, put_key, put_text};
use package_stages::Stage;

// n hashes, each behind a comma.
fn next_hashes<F: Fn(usize) -> ident::Hash>(out: &mut [u8], at: usize, n: usize, hash: F) -> usize
    requires room { (n ≤ list_most) × (at + hashes_room n ≤ farthest) }
    requires known { (j : ℕ) → j < n → F.pre hash j }
    ensures near { result ≤ at + hashes_room n }
    ensures laid { LaysHashes (F.post hash) out.old out.new at n result }
{
    let mut e = at;
    for j in 0..n {
        e = next_hash(out, e, hash(j));
    }
    e
}

// How many parents the request of the i-th place has, and those.
fn next_parents(s: &[u8], out: &mut [u8], at: usize, i: usize) -> usize
    requires { Kept s.now × (i < held_places_in s.now) × (at + parents_room ≤ farthest) }
    ensures { (result ≤ at + parents_room) × ReadAt s.now i (λ q. Lays out.old out.new at (with_commas (list_fields short q.parents)) result) }
{
    let n = package_stages::parents(s, i);
    let e = next_number(out, at, n as u64);
    next_hashes(
        out,
        e,
        n,
        |j|
            requires { Kept s.now × (i < held_places_in s.now) × (j < list_most) }
            ensures { ReadAt s.entry.now i (λ q. j < length q.parents → hash_num result ≡ get_or q.parents j 0) }
        { package_stages::parent_at(s, i, j) },
    )
}

// The package of the i-th place, whose request has this stage.
fn next_package(s: &[u8], out: &mut [u8], at: usize, i: usize, stage: Stage) -> usize
    requires { Kept s.now × (i < held_places_in s.now) × (at + package_room ≤ farthest) }
    ensures { (result ≤ at + package_room)
        × ReadAt s.now i (λ q. stage_word (Some stage) ≡ stage_of q.info q.«package» → Lays out.old out.new at (with_commas (maybe_fields (package_fields short) q.«package»)) result) }
{
    if stage == Stage::Flagged {
        return put_text(out, at, b",none");
    }
    let c = package_stages::combined_at(s, i);
    let n = package_stages::wtxids(s, i);
    let e = next_hash(out, at, c);
    let e = next_number(out, e, n as u64);
    let e = next_hashes(
        out,
        e,
        n,
        |j|
            requires { Kept s.now × (i < held_places_in s.now) × (j < list_most) }
            ensures { ReadAt s.entry.now i (λ q. j < length (wtxids_of q.«package») → hash_num result ≡ get_or (wtxids_of q.«package») j 0) }
        { package_stages::wtxid_at(s, i, j) },
    );
    next_bool(out, e, stage == Stage::Enqueued)
}

// Package and parents of the request at k, of which q says what the rows and the place say.
fn next_place(
    s: &[u8],
    out: &mut [u8],
    at: usize,
    k: ident::Key,
    q: package_stages::Request,
) -> usize
    requires { Kept s.now × RequestAt s.now (key_num k) q × (at + place_room ≤ farthest) }
    ensures { (result ≤ at + place_room) × Tells s.now (λ t. Lays out.old out.new at (with_commas (place_texts (the (key_num k) t))) result) }
{
    let Some(stage) = q.stage else {
        return put_text(out, at, b",none,0");
    };
    let Ok(i) = package_stages::seek(s, k.hash) else {
        unreachable!("a request with a stage has a place");
    };
    let e = next_package(s, out, at, i, stage);
    next_parents(s, out, e, i)
}

// The line of the request at k, of which q says what the rows and the place say.
pub fn put_request(
    s: &[u8],
    out: &mut [u8],
    at: usize,
    k: ident::Key,
    q: package_stages::Request,
) -> usize
    requires { Kept s.now × RequestAt s.now (key_num k) q × (at + request_room ≤ farthest) }
    ensures { (result ≤ at + request_room) × Tells s.now (λ t. Lays out.old out.new at (line_text (RequestLine (with_candidates [] (the (key_num k) t)))) result) }
{
    let e = put_key(out, at, k);
    let e = next_owner(out, e, q.owner);
    let e = next_bool(out, e, q.stage == Some(Stage::Flagged));
    let e = next_place(s, out, e, k, q);
    let e = next_bool(out, e, q.mark);
    put_text(out, e, b"\n")
}

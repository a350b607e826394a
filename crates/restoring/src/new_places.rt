// The place of a request: flag or package, and its lists, from the request's line.
ghost use Rattle.std.specs.Prelude.{◌≡◌, ℕ, ◌≤◌, ◌<◌, List, ◌++◌, length, Some};
ghost use Rattle.lent_lists.specs.Lists.{hashes_in};
ghost use Rattle.regions.specs.Rows.{quad_number};
ghost use Rattle.places.specs.Places.{list_most};
ghost use Rattle.store.specs.Flat.{places_for};
ghost use Rattle.store.specs.Shown.{places_in, held_places_in, Shown, with_places, Turns};
ghost use Rattle.package_stages.specs.Changes.{stage_word, combined_of, wtxids_of};
ghost use Rattle.listed_lines.specs.Given.{list_room, package_of, request_in};
ghost use Rattle.restoring.specs.Given.{Appends, stage_for, PlaceRoom};
ghost use Rattle.reading.specs.Given.{hashes_of};

use ident::HASH_BYTES;
use listed_lines::line::Request;
use listed_lines::parts::Package;
use package_stages::{Stage, flat};

// One place more, behind the others; its lists have 32 bytes for each hash.
fn append_place(
    s: &mut [u8],
    hash: regions::Quad,
    combined: regions::Quad,
    stage: Stage,
    wtxids: &[u8],
    parents: &[u8],
)
    requires { Shown s.old × (held_places_in s.old < places_in s.old) × (length (hashes_in wtxids.now) ≤ list_most) × (length (hashes_in parents.now) ≤ list_most) }
    ensures { Appends s.old s.new (record {
      hash = quad_number hash;
      combined = quad_number combined;
      stage = stage_word (Some stage);
      wtxids = hashes_in wtxids.now;
      parents = hashes_in parents.now;
    }) }
{
    let i = store::head::held_places(s);
    store::package_places::open_place(s, i, hash, u64::from(stage));
    flat::push_wtxids(s, i, wtxids);
    flat::set_combined(s, i, combined);
    flat::push_parents(s, i, parents);
}

// ---- what a line says of its place

// (No From: both types are other crates'.)
fn stage_of(p: Option<Package>) -> Stage
    ensures { (ws : List ℕ) → stage_word (Some result) ≡ stage_for (package_of ws p) }
{
    match p {
        None => Stage::Flagged,
        Some(p) if p.enqueued => Stage::Enqueued,
        Some(_) => Stage::Awaiting,
    }
}

fn combined_of(p: Option<Package>) -> regions::Quad
    ensures { (ws : List ℕ) → quad_number result ≡ combined_of (package_of ws p) }
{
    p.map_or(regions::Quad::ZERO, |p| p.combined)
}

fn wtxid_count(p: Option<Package>) -> usize
    ensures { (ws : List ℕ) → hashes_of result ws ≡ wtxids_of (package_of ws p) }
{
    p.map_or(0, |p| p.wtxids)
}

// The place of a request's line, if it has one, behind the others.
// (Two slices: of the `Lists` that a line is read into it needs what stands in them, and not that they may be written.)
pub fn add_place(s: &mut [u8], r: Request, wtxids: &[u8], parents: &[u8])
    requires { PlaceRoom s.old (request_in wtxids.now parents.now r) × (list_room ≤ length wtxids.now) × (list_room ≤ length parents.now) }
    ensures { Turns s.old s.new (λ f. with_places (f.places ++ places_for (request_in wtxids.now parents.now r)) f) }
{
    let p = r.packed;
    // (`|`: what stands below is proved of one test, and of no second way to it.)
    if r.info | p.is_some() {
        let n = wtxid_count(p) * HASH_BYTES;
        let m = r.parents * HASH_BYTES;
        append_place(
            s,
            r.key.hash,
            combined_of(p),
            stage_of(p),
            &wtxids[..n],
            &parents[..m],
        );
    }
}

// Owners of many hashes in one walk (document 02, request e), on the bytes of a sound store, which are only read.
//
// Rows ascend by key: first those of Txid keys, then those of Wtxid keys, and in each half by hash. Two indices go along the halves, from one hash of the list to the
// next, so that every row up to the greatest hash is passed once, and behind it no more than the next one is looked at. A key is counted at its last row.
#![tactic(auto, using(requests::proofs::Keeping::kept_shown, sweeping::proofs::Lent::kept_head))]

ghost use Rattle.std.specs.Prelude.{ℕ, ◌≡◌, true, ◌+◌, ◌*◌, ◌≤◌, length, drop};
ghost use Rattle.std.proofs.Math.Option.{Option, none};
ghost use Rattle.words.specs.Words.{bytes_of, splice};
ghost use Rattle.regions.specs.Rows.{quad_number};
ghost use Rattle.machine.specs.Owners.{Holding, holding_as, or_holding, ascending};
ghost use Rattle.machine.specs.Call.{owner_bytes};
ghost use Rattle.store.specs.Gather.{key_at, owner_at};
ghost use Rattle.store.specs.Shown.{rows_in, Shown, Kept};
ghost use Rattle.lent_lists.specs.Lists.{hashes_in};
ghost use Rattle.owners.specs.Back.{holding_in, holding_of};
ghost use Rattle.owners.specs.Walk.{owner_words, Says, row_holding, Along, Halves, OwnersListed};

use std::ops::Bound;
use store::rows::Window;

pub mod list;

// Words of an owner in an answer buffer.
pub const OWNER: usize = 3;

// Who owns a hash, and under which kind.
#[derive(Clone, Copy)]
pub struct Owner {
    pub kind: ident::Kind,
    pub connection: u64,
    pub deadline: u64,
}

// The rows up to a hash: the first one behind them, how many keys they have, and whom they name as the hash's owner.
#[derive(Clone, Copy)]
struct Stretch {
    at: usize,
    keys: u64,
    owner: Option<Owner>,
}

// ---- one row

// Whom a row names.
fn named_by(r: regions::Row) -> Option<Owner>
    ensures { Says result (holding_as (key_at r) (owner_at r none)) }
{
    if r.owns() {
        return Some(Owner {
            kind: r.kind(),
            connection: r.conn,
            deadline: r.deadline,
        });
    }
    None
}

// What has been found for the hash h, with a row more, whose hash is not above it.
fn with_row(v: Option<Owner>, r: regions::Row, h: regions::Quad) -> Option<Owner>
    requires { quad_number r.hash ≤ quad_number h }
    ensures { (o : Option Holding) → Says v o → Says result (or_holding o (row_holding (quad_number h) r)) }
{
    if regions::quad_less(r.hash, h) {
        return v;
    }
    v.or(named_by(r))
}

// ---- the rows up to a hash

// Those of a window, which are of one kind.
fn along(s: &[u8], rows: Window, h: regions::Quad) -> Stretch
    requires { Shown s.now × (rows.to ≤ rows_in s.now) }
    ensures { Along s.now rows.from rows.to (quad_number h) result }
{
    let mut keys: u64 = 0;
    let mut owner = None;
    for i in rows.from..rows.to {
        let r = store::rows::row_at(s, i);
        if regions::quad_less(h, r.hash) {
            return Stretch { at: i, keys, owner };
        }
        owner = with_row(owner, r, h);
        keys += u64::from(sweeping::batch::ends_key(s, r, i + 1, rows.to));
    }
    Stretch {
        at: rows.to,
        keys,
        owner,
    }
}

// The first row of a Wtxid key.
fn first_wtxid(s: &[u8]) -> usize
    requires { Kept s.now }
    ensures { Halves s.now result }
{
    let hash = regions::Quad::ZERO;
    let kind = ident::Kind::Wtxid;
    store::rows::seek_row(s, Bound::Included(regions::Key { kind, hash }))
}

// ---- the list

// Stores v as the n-th owner of u. Its tag is the number of its kind and one more: 0 says that nobody owns the hash. (n is the owner's place: the list of hashes says how many owners
// there are. The tags of cursors are a store's format, these document 02's: `cursors` keeps its own to itself.)
fn put_owner(u: &mut [u8], n: usize, v: Option<Owner>)
    requires { owner_bytes * n + owner_bytes ≤ length u.old }
    ensures { u.new ≡ splice u.old (owner_bytes * n) (bytes_of (owner_words v)) }
{
    let w = n * OWNER;
    match v {
        Some(o) => claiming::entries::put_three(
            u,
            w,
            u64::from(o.kind) + 1,
            o.connection,
            o.deadline,
        ),
        None => claiming::entries::put_three(u, w, 0, 0, 0),
    }
}

// The i-th owner of an answer, as `put_owner` stores it.
pub fn owner_at(answer: &[u8], i: usize) -> Option<Owner>
    requires { owner_bytes * i + owner_bytes ≤ length answer.now }
    ensures { (h : ℕ) → holding_in h (drop (owner_bytes * i) answer.now) ≡ holding_of h result }
{
    let w = i * OWNER;
    let tag = words::get(answer, w);
    if tag == 0 {
        return None;
    }
    Some(Owner {
        kind: ident::Kind::from(tag - 1),
        connection: words::get(answer, w + 1),
        deadline: words::get(answer, w + 2),
    })
}

// Writes the owner of each of the hashes, which ascend, to `out`. Answers how many held keys have a hash that is not above the greatest of them.
pub fn owners_of(s: &[u8], hashes: &[u8], out: &mut [u8]) -> u64
    requires { Kept s.now × (ascending (hashes_in hashes.now) ≡ true) × (owner_bytes * length (hashes_in hashes.now) ≤ length out.old) }
    ensures { OwnersListed s.now (hashes_in hashes.now) out.old out.new result }
{
    let n = store::head::rows(s);
    let m = first_wtxid(s);
    let count = lent_lists::hashes(hashes);
    let mut i = 0;
    let mut j = m;
    let mut passed: u64 = 0;
    for p in 0..count {
        let h = regions::Quad::from(lent_lists::hash_in(hashes, p));
        let a = along(s, Window { from: i, to: m }, h);
        let b = along(s, Window { from: j, to: n }, h);
        put_owner(out, p, a.owner.or(b.owner));
        i = a.at;
        j = b.at;
        passed += a.keys + b.keys;
    }
    passed
}

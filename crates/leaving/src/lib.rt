// A connection leaves (document 01, "disconnected"). Its keys wait to be cut together (crate cutting), up to one that it owns and whose
// parents are announced (crate handing): cuts may move neither before nor behind that, since it needs room.
//
// The keys of the connection and those of the parents stand in one buffer, the answer that document 01 asks for, with the number of its own keys beside it: cut in
// two at its own keys, each turn would have to say that both parts are the buffer that was lent. Other numbers beside it are indices of keys.
//
// s, n, clock and out are arguments of their own, as document 01's call gives them: no step keeps them, and a struct of them would hold the
// lends of both the store and the answer, to be taken apart in each step.
#![tactic(auto)]

ghost use Rattle.std.specs.Prelude.{◌≡◌, ℕ, min, ◌+◌, ◌*◌, ◌≤◌, ◌<◌, List, length};
ghost use Rattle.machine.specs.Limits.{max_peer_announcements, max_parents};
ghost use Rattle.machine.specs.State.{State, limits_of};
ghost use Rattle.machine.specs.Leave as machine;
ghost use Rattle.machine.specs.Sound.{Sound};
ghost use Rattle.store.specs.Image.{Writes};
ghost use Rattle.machine.specs.Call.{key_bytes};
ghost use Rattle.store.specs.Shown.{limit_in, places_in, Kept};
ghost use Rattle.leaving.specs.Parts.{PutIf, OwnKeys};
ghost use Rattle.leaving.specs.Parting.{CutListed, Idle, Going, Underway, Ended, Parted};

use ident::connection::Connection;
use lent_lists::KEY;

// ---- the keys under which a connection is a candidate

// Writes the key of the row r as the c-th of `out`, if it is a row of the connection n; answers how many are written then.
fn put_own(out: &mut [u8], c: usize, n: u64, r: regions::Row) -> usize
    requires { (r.conn ≡ n) → (key_bytes * c + key_bytes ≤ length out.old) }
    ensures { PutIf n r out.old out.new c result }
{
    if r.conn == n {
        let k = announcing::evict::key_of(r);
        lent_lists::put_key(out, c, k);
        c + 1
    } else {
        c
    }
}

// Writes the keys under which the connection n is a candidate, in their order; answers how many they are.
#[tactic(auto, using(announcing::proofs::Lent::kept_long, requests::proofs::Keeping::kept_shown))]
pub fn own_keys(s: &[u8], n: u64, out: &mut [u8]) -> usize
    requires { Kept s.now × (key_bytes * min max_peer_announcements (limit_in s.now) ≤ length out.old) }
    ensures { OwnKeys n s.now out.old out.new result }
{
    let rows = store::head::rows(s);
    let mut c = 0;
    for i in 0..rows {
        let r = store::rows::row_at(s, i);
        c = put_own(out, c, n, r);
    }
    c
}

// ---- disconnected

// How many keys are the connection's own, and how many the parents'.
#[derive(Clone, Copy)]
pub struct Left {
    pub own: usize,
    pub parents: usize,
}

// Which of its keys is the first that waits to be cut, how many parents' keys are listed, and the row from which to look for its next
// row; none once rows have moved.
#[derive(Clone, Copy)]
struct Progress {
    from: usize,
    parents: usize,
    next: Option<usize>,
}

// Cuts the candidates of n under the keys from .. to of `out`.
fn cut_listed(s: &mut [u8], n: u64, out: &[u8], from: usize, to: usize)
    requires { Kept s.old × (key_bytes * to ≤ length out.now) }
    ensures { CutListed n out.now from to s.old s.new }
{
    if from < to {
        let a = lent_lists::key_at(out, from);
        let b = lent_lists::key_at(out, to - 1);
        cutting::cut_between(s, n, a, b);
    }
}

// The i-th of its keys: it waits, or what waits is cut in one pass and n is dropped there.
fn take_turn(
    s: &mut [u8],
    n: Connection,
    clock: u64,
    out: &mut [u8],
    own: usize,
    i: usize,
    p: Progress,
) -> Progress
    requires { Underway n.number clock s.old out.old own p.from i p.parents × (i < own) }
    ensures { (st : State) (u₀ : List ℕ) → Going n.number clock st u₀ s.old out.old own p.from i p.parents
        → Going n.number clock st u₀ s.new out.new own result.from (i + 1) result.parents }
{
    let k = lent_lists::key_at(out, i);
    let next = handing::waits(s, k, n, clock, p.next);
    if next.is_some() {
        return Progress { next, ..p };
    }
    cut_listed(s, n.number, out, p.from, i);
    let x = own * KEY;
    let parents = handing::drop_owned(s, k, n, clock, &mut out[x..], p.parents);
    Progress {
        from: i + 1,
        parents,
        next: None,
    }
}

// How many of its keys need not be looked at: all of them, if n owns nothing.
fn idle_keys(s: &[u8], n: u64, own: usize) -> usize
    requires { Kept s.now }
    ensures { Idle n s.now own result }
{
    let c = requests::figures(s, n);
    if c.owned == 0 { own } else { 0 }
}

// The keys under which the connection n is a candidate stand in `out`, `own` of them: it leaves each. Lists the keys of the parents
// announced behind them, in order; answers how many these are.
fn drop_keys(s: &mut [u8], n: Connection, clock: u64, out: &mut [u8], own: usize) -> usize
    requires { Kept s.old × (key_bytes * (min max_peer_announcements (limit_in s.old) + max_parents * places_in s.old) ≤ length out.old) × OwnKeys n.number s.old out.old out.old own }
    ensures { (st : State) → Sound st → Writes s.old st → Ended n.number clock st out.old out.new s.new result }
{
    let mut p = Progress {
        from: 0,
        parents: 0,
        next: Some(0),
    };
    for i in idle_keys(s, n.number, own)..own {
        p = take_turn(s, n, clock, out, own, i, p);
    }
    cut_listed(s, n.number, out, p.from, own);
    p.parents
}

// The connection n is gone: it leaves every request that it is a candidate of. Lists in `out` the keys of these, and behind them the
// keys of parents announced for the candidates left, in order and without repeats. (An Enqueued package stays with its owner.)
pub fn disconnected(s: &mut [u8], n: Connection, clock: u64, out: &mut [u8]) -> Left
    requires { Kept s.old × (key_bytes * (min max_peer_announcements (limit_in s.old) + max_parents * places_in s.old) ≤ length out.old) }
    ensures { Parted s.old s.new out.old out.new result (λ st. machine.disconnected (limits_of st) n.number clock st.table) }
{
    let own = own_keys(s, n.number, out);
    let parents = drop_keys(s, n, clock, out, own);
    Left { own, parents }
}

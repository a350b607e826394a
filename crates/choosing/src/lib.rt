// The candidate that a plan chooses for a hash: "the least (unpreferred, priority, kind, arrival) over both kinds, ready, its
// connection below 100". And, where no candidate of a key is ready, the earliest later ready time among them (document 02, request c).
//
// The rows of a key are scanned from the last to the first, so that what has been found is the choice among the rows from here on.
#![tactic(auto, using(requests::proofs::Keeping::kept_shown))]

ghost use Rattle.std.specs.Prelude.{◌≡◌, [], ◌-◌, ◌/◌, ◌%◌, ◌≤◌};
ghost use Rattle.ident.specs.Words.{hash_num};
ghost use Rattle.machine.specs.Plan as machine;
ghost use Rattle.store.specs.Flat.{Flat};
ghost use Rattle.store.specs.Gather.{candidate_at};
ghost use Rattle.store.specs.Image.{Shows};
ghost use Rattle.store.specs.Shown.{rows_in, Shown, Kept};
ghost use Rattle.requests.specs.Changes.{Tells};
ghost use Rattle.announcing.specs.Evicts.{part};
ghost use Rattle.choosing.specs.Choosing.{any_owns, Better, WithRow, Least, Either, Choice, WindowAs, Windows, Chooses};

use machine::limits::MAX_PEER_IN_FLIGHT;

pub mod later;

// A row that a scan has found, and its number.
#[derive(Clone, Copy)]
pub struct Pick {
    pub row: regions::Row,
    pub at: usize,
}

// The row of the candidate that is chosen, if there is one. And when one is ready, where none is.
#[derive(Clone, Copy)]
pub struct Chosen {
    pub pick: Option<Pick>,
    pub wait: Option<u64>,
}

// Where the rows of a hash stand: as Txid, and as Wtxid.
#[derive(Clone, Copy)]
pub struct HashRows {
    pub txid: requests::Window,
    pub wtxid: requests::Window,
}

// ---- one row

// By what the least is chosen: (unpreferred, priority).
fn rank(r: regions::Row) -> (u64, u64)
    ensures { (result.0 ≡ 1 - r.bits / 4 % 2) × (result.1 ≡ r.prio) }
{
    (u64::from(!r.is_preferred()), r.prio)
}

// Whether a comes before b. (A derived order of rows would compare all that a row has.)
fn sooner(a: regions::Row, b: regions::Row) -> bool
    ensures { result ≡ machine.sooner (candidate_at a) (candidate_at b) }
{
    rank(a) < rank(b)
}

// Whether a row's candidate is ready, and its connection owns fewer requests than it may.
fn able(s: &[u8], clock: u64, r: regions::Row) -> bool
    requires { Kept s.now }
    ensures { Tells s.now (λ t. result ≡ machine.able clock t [] (candidate_at r)) }
{
    if clock < r.ready {
        return false;
    }
    let f = requests::figures(s, r.conn);
    f.owned < MAX_PEER_IN_FLIGHT
}

// The sooner of p and of what has been found; p, where neither is.
fn better(p: Pick, best: Option<Pick>) -> Option<Pick>
    ensures { Better p.row p.at best result }
{
    match best {
        Some(found) if sooner(found.row, p.row) => best,
        _ => Some(p),
    }
}

// One row more, in front of those that were scanned.
fn with_row(s: &[u8], clock: u64, p: Pick, best: Option<Pick>) -> Option<Pick>
    requires { Kept s.now }
    ensures { WithRow s.now clock p.row p.at best result }
{
    if able(s, clock, p.row) {
        better(p, best)
    } else {
        best
    }
}

// ---- the rows of a key

// The choice among the rows of x. (A fold by the index: what is chosen is told with its place.)
fn least_in(s: &[u8], clock: u64, x: requests::Window) -> Option<Pick>
    requires { Kept s.now × (x.to ≤ rows_in s.now) }
    ensures { Least s.now clock x.from x.to result }
{
    let mut v = None;
    for i in (x.from..x.to).rev() {
        let r = store::rows::row_at(s, i);
        v = with_row(s, clock, Pick { row: r, at: i }, v);
    }
    v
}

// Whether one of the rows of x owns its request.
fn owned_in(s: &[u8], x: requests::Window) -> bool
    requires { Shown s.now × (x.to ≤ rows_in s.now) }
    ensures { (f : Flat) → Shows s.now f → result ≡ any_owns (part x.from x.to f.rows) }
{
    (x.from..x.to).any(|i| store::rows::row_at(s, i).owns())
}

// ---- a hash

// The first, unless the second is sooner or alone.
fn either(a: Option<Pick>, b: Option<Pick>) -> Option<Pick>
    ensures { Either a b result }
{
    match a {
        Some(p) => better(p, b),
        None => b,
    }
}

// What a plan chooses for the hash whose rows stand there, if nobody owns it. Where no row of a key is ready, when one will be.
pub fn choose_within(s: &[u8], clock: u64, h: HashRows) -> Chosen
    requires { Kept s.now × (h.txid.to ≤ rows_in s.now) × (h.wtxid.to ≤ rows_in s.now) }
    ensures { Choice s.now clock h.txid h.wtxid result }
{
    let x = h.txid;
    let y = h.wtxid;
    if owned_in(s, x) || owned_in(s, y) {
        return Chosen {
            pick: None,
            wait: None,
        };
    }
    let p = least_in(s, clock, x);
    let q = least_in(s, clock, y);
    let a = later::wait_in(s, clock, x);
    let b = later::wait_in(s, clock, y);
    Chosen {
        pick: either(p, q),
        wait: later::earlier(a, b),
    }
}

// Where the rows of the hash h stand under one kind.
pub fn window_as(s: &[u8], kind: ident::Kind, h: ident::Hash) -> requests::Window
    requires { Kept s.now }
    ensures { WindowAs s.now kind (hash_num h) result }
{
    let key = regions::Key::from(ident::Key { kind, hash: h });
    requests::window_of(s, key)
}

// Where its rows stand under both.
pub fn rows_of(s: &[u8], h: ident::Hash) -> HashRows
    requires { Kept s.now }
    ensures { Windows s.now (hash_num h) result.txid result.wtxid }
{
    HashRows {
        txid: window_as(s, ident::Kind::Txid, h),
        wtxid: window_as(s, ident::Kind::Wtxid, h),
    }
}

// What a plan chooses for the hash h, if nobody owns it.
pub fn choose_free(s: &[u8], clock: u64, h: ident::Hash) -> Chosen
    requires { Kept s.now }
    ensures { Chooses s.now clock (hash_num h) result }
{
    choose_within(s, clock, rows_of(s, h))
}

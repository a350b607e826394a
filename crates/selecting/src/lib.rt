// The scan of a plan (document 01, "plan"). For its length what is selected owns its request in the store, so that "not yet selected by
// this plan" and "counting this plan's" are questions to the store. Rows do not move meanwhile: a selection is remembered by the number
// of its row, and its entry is written once, when the order is known.
//
// The numbers stand in memory that a caller lends (picks; there is no heap), as many as the scan's `chosen` says. They are no struct: with a lend in it, each contract
// would have to say that it is the same lend. What one phase's scans have room for (`Roomy`) is a clause and no ghost field, since `consider` takes any scan.
#![tactic(auto, using(requests::proofs::Keeping::kept_shown, sweeping::proofs::Lent::kept_head))]

ghost use Rattle.std.specs.Prelude.{◌≡◌, false, ◌+◌, ◌≤◌, ◌<◌, length};
ghost use Rattle.ident.specs.Words.{hash_num, key_num};
ghost use Rattle.store.specs.Shown.{rows_in, half, Kept};
ghost use Rattle.choosing.specs.Choosing.{Windows};
ghost use Rattle.selecting.specs.Selecting.{Fresh, OneSelected, Considers};

use choosing::HashRows;
use machine::clock::Clock;
use machine::limits::{MAX_REQUEST_CHECKS, REQUEST_LIFETIME};

pub mod giving;
pub mod near;
pub mod ordering;
pub mod phase;

// How far a scan has come: how many are selected, how many keys were considered, the last of them, and whether the phase has stopped. (`full` is no flag of another
// field: a phase begins with it down, however many are selected, and its parts hand it on. A Result would hold the same scan in both its arms.)
#[derive(Clone, Copy)]
pub struct Scan {
    pub chosen: usize,
    pub considered: u64,
    pub full: bool,
    pub last: Option<ident::Key>,
}

impl Scan {
    // Nothing selected, nothing considered.
    pub fn fresh() -> Self
        ensures { Fresh result }
    {
        Scan {
            chosen: 0,
            considered: 0,
            full: false,
            last: None,
        }
    }

    // The same scan, where a phase begins.
    pub fn opened(self) -> Self
        ensures { result ≡ record { chosen = self.chosen; considered = self.considered; full = false; last = self.last } }
    {
        Scan {
            full: false,
            ..self
        }
    }
}

// Selects what is to be chosen for the hash whose rows stand there, if nobody owns it, and remembers its row as the n-th. Answers how many are
// remembered now.
fn select_within(s: &mut [u8], clock: Clock, h: HashRows, picks: &mut [usize], n: usize) -> usize
    requires { Kept s.old × (h.txid.to ≤ rows_in s.old) × (h.wtxid.to ≤ rows_in s.old) × (n < length picks.old) }
    ensures { OneSelected s.old s.new picks.old picks.new clock.time h.txid h.wtxid n result }
{
    let Some(p) = choosing::choose_within(s, clock.time, h).pick else {
        return n;
    };
    let k = announcing::evict::key_of(p.row);
    requests::own(s, k, p.row.conn, clock.time + REQUEST_LIFETIME);
    picks[n] = p.at;
    n + 1
}

// Considers the key k, whose hash has its rows there.
fn consider_within(
    s: &mut [u8],
    clock: Clock,
    k: ident::Key,
    h: HashRows,
    picks: &mut [usize],
    v: Scan,
) -> Scan
    requires { Kept s.old × Windows s.old (hash_num k.hash) h.txid h.wtxid × (v.chosen < length picks.old) × (v.considered ≤ half) }
    ensures { Considers s.old s.new picks.old picks.new clock.time (key_num k) v result }
{
    let chosen = select_within(s, clock, h, picks, v.chosen);
    Scan {
        chosen,
        considered: v.considered + 1,
        full: MAX_REQUEST_CHECKS <= chosen,
        last: Some(k),
    }
}

// Considers the key k.
pub fn consider(s: &mut [u8], clock: Clock, k: ident::Key, picks: &mut [usize], v: Scan) -> Scan
    requires { Kept s.old × (v.chosen < length picks.old) × (v.considered ≤ half) }
    ensures { Considers s.old s.new picks.old picks.new clock.time (key_num k) v result }
{
    let h = choosing::rows_of(s, k.hash);
    consider_within(s, clock, k, h, picks, v)
}

// A scan that walks over the rows, and where the rows of the last hash end under each kind.
#[derive(Clone, Copy)]
pub struct Walk {
    pub scan: Scan,
    pub txid_end: usize,
    pub wtxid_end: usize,
}

// Considers the key k, whose hash is looked for behind the last one.
pub fn consider_next(
    s: &mut [u8],
    clock: Clock,
    k: ident::Key,
    picks: &mut [usize],
    v: Walk,
) -> Walk
    requires { Kept s.old × (v.scan.chosen < length picks.old) × (v.scan.considered ≤ half) }
    ensures { Considers s.old s.new picks.old picks.new clock.time (key_num k) v.scan result.scan }
{
    let x = near::window_near(s, ident::Kind::Txid, k.hash, v.txid_end);
    let y = near::window_near(s, ident::Kind::Wtxid, k.hash, v.wtxid_end);
    let h = HashRows { txid: x, wtxid: y };
    Walk {
        scan: consider_within(s, clock, k, h, picks, v.scan),
        txid_end: x.to,
        wtxid_end: y.to,
    }
}

// The machine's changes of one request, in the lent bytes (document 01, modules 2 and 3): one candidate more, one less, an owner.
//
// A contract speaks of every sound state that the bytes write and cites the machine's own definition of the change. A `requires`
// asks that the bytes write some sound state, and room where a row is added.
#![tactic(auto)]

ghost use Rattle.std.specs.Prelude.{◌≡◌, ◌+◌, ◌-◌, ◌≤◌, ◌<◌, map, true, false};
ghost use Rattle.std.proofs.Math.Option.{none};
ghost use Rattle.ident.specs.Number.{place};
ghost use Rattle.ident.specs.Words.{hash_num, key_num};
ghost use Rattle.regions.specs.Rows.{key_number, with_deadline, with_bits, with_ready};
ghost use Rattle.machine.specs.State.{owner_is, owned_until, unowned, with_candidates, ready_at};
ghost use Rattle.machine.specs.Table.{at, change, has, is_candidate, one};
ghost use Rattle.machine.specs.Announce as machine;
ghost use Rattle.machine.specs.Fail as fail;
ghost use Rattle.regions.specs.Packed.{bit};
ghost use Rattle.store.specs.Flat.{witness_bit};
ghost use Rattle.store.specs.Shown.{limit_in, rows_in, Kept, Shown};
ghost use Rattle.store.specs.Stamps.{marked_row};
ghost use Rattle.requests.specs.Windows.{EndsAt};
ghost use Rattle.requests.specs.Changes.{candidate_of, Spans, FoundAmong, MarkIn, RowFor, witness_as, RowAdopting, OwnedBare, FiguresOf, Makes, Tells};

use regions::RowBits;
use std::ops::Bound;
pub use store::rows::Window;

pub mod whole;
pub mod windows;

// One announcement: who can deliver, as what item, from when on, and how it ranks. (`preferred` ranks by itself: no other field stands or falls with it.)
#[derive(Clone, Copy, Debug, PartialEq, Eq)]
pub struct Candidate {
    pub connection: u64,
    pub item: ident::Item,
    pub ready: u64,
    pub preferred: bool,
    pub priority: u64,
}

// ---- keys and bits as rows have them

// Whether an item of this kind is v.
fn is_witness(k: ident::ItemKind) -> bool
    ensures { bit result ≡ witness_bit k }
{
    k == ident::ItemKind::WitnessTransaction
}

// The row of a candidate that does not own its request.
pub fn new_row(k: regions::Key, c: Candidate, mark: bool) -> regions::Row
    ensures { RowFor k c mark result }
{
    let bits = RowBits {
        kind: k.kind,
        witness: is_witness(c.item.kind),
        preferred: c.preferred,
        owns: false,
        mark,
    };
    regions::Row {
        hash: k.hash,
        conn: c.connection,
        ready: c.ready,
        prio: c.priority,
        deadline: 0,
        bits: u64::from(bits),
    }
}

// ---- the rows of a key

// Where the rows of the key k end, which begin at `from`. (A key has eight at most: they are walked, and no second search is made.)
fn end_of(s: &[u8], k: regions::Key, from: usize) -> usize
    requires { Shown s.now × (from ≤ rows_in s.now) }
    ensures { EndsAt s.now (key_number k) from result }
{
    let n = store::head::rows(s);
    (from..n)
        .find(|&i| regions::key_less(k, regions::Key::from(store::rows::row_at(s, i))))
        .unwrap_or(n)
}

// Where they stand.
pub fn window_of(s: &[u8], k: regions::Key) -> Window
    requires { Kept s.now }
    ensures { Spans s.now (key_number k) result.from result.to }
{
    let from = store::rows::seek_row(s, Bound::Included(k));
    let to = end_of(s, k, from);
    Window { from, to }
}

// Whether the request whose rows are from .. to has the mark: its first row has it. (Two numbers and no `Window`, which would ask more: they may be in any order.)
pub fn mark_in(s: &[u8], from: usize, to: usize) -> bool
    requires { Shown s.now × (to ≤ rows_in s.now) }
    ensures { MarkIn s.now from to result }
{
    from < to && store::rows::row_at(s, from).is_marked()
}

// Where the row of a connection stands among those of a key, if it has one there.
fn find_row(s: &[u8], k: regions::Key, n: u64) -> Option<usize>
    requires { Kept s.now }
    ensures { FoundAmong s.now (key_number k) n result }
{
    store::rows::find_row(s, window_of(s, k), n)
}

// Whether the connection n is a candidate of the request at k, whose rows are those of w.
pub fn holds_in(s: &[u8], k: ident::Key, w: Window, n: u64) -> bool
    requires { Kept s.now × Spans s.now (place (key_num k)) w.from w.to }
    ensures { Tells s.now (λ t. result ≡ has n (at (key_num k) t).candidates) }
{
    store::rows::find_row(s, w, n).is_some()
}

// Whether the connection n is a candidate of the request at k.
pub fn holds(s: &[u8], k: ident::Key, n: u64) -> bool
    requires { Kept s.now }
    ensures { Tells s.now (λ t. result ≡ has n (at (key_num k) t).candidates) }
{
    find_row(s, regions::Key::from(k), n).is_some()
}

// ---- a connection

// The announcements of the connection n, and the requests that it owns.
pub fn figures(s: &[u8], n: u64) -> regions::Conn
    requires { Kept s.now }
    ensures { Tells s.now (λ t. FiguresOf t n result.held result.owned) }
{
    match store::counting::find(s, n) {
        Ok(i) => store::parts::at(s, i),
        Err(_) => regions::Conn {
            conn: n,
            held: 0,
            owned: 0,
        },
    }
}

// ---- a hash

// Whether the connection n is a candidate at the hash h, under either kind.
pub fn is_candidate(s: &[u8], h: ident::Hash, n: u64) -> bool
    requires { Kept s.now }
    ensures { Tells s.now (λ t. result ≡ is_candidate n (hash_num h) t) }
{
    windows::is_candidate_in(s, h, windows::windows_of(s, h), n)
}

// ---- one candidate more, one less

// Adds a candidate of the request at k, whose rows are those of w, behind them.
pub fn push_in(s: &mut [u8], k: ident::Key, w: Window, c: Candidate)
    requires { Kept s.old × (rows_in s.old < limit_in s.old) × Spans s.old (place (key_num k)) w.from w.to }
    ensures { Makes s.old s.new (λ t. owner_is c.connection (at (key_num k) t).owner ≡ false) (machine.push (key_num k) (candidate_of c)) }
{
    let key = regions::Key::from(k);
    let mark = mark_in(s, w.from, w.to);
    let r = new_row(key, c, mark);
    store::parts::add(s, w.to, r);
    store::counting::count_in(s, c.connection, 1);
}

// Adds a candidate of the request at k, behind those that are there.
pub fn push(s: &mut [u8], k: ident::Key, c: Candidate)
    requires { Kept s.old × (rows_in s.old < limit_in s.old) }
    ensures { Makes s.old s.new (λ t. owner_is c.connection (at (key_num k) t).owner ≡ false) (machine.push (key_num k) (candidate_of c)) }
{
    let w = window_of(s, regions::Key::from(k));
    push_in(s, k, w, c);
}

// Takes the candidate of the connection n out of the request at k, which it does not own.
pub fn cut(s: &mut [u8], k: ident::Key, n: u64)
    requires { Kept s.old }
    ensures { Makes s.old s.new (λ t. (has n (at (key_num k) t).candidates ≡ true) × (owner_is n (at (key_num k) t).owner ≡ false)) (machine.cut (key_num k) n) }
{
    if let Some(i) = find_row(s, regions::Key::from(k), n) {
        store::parts::drop::<regions::Row>(s, i);
        store::counting::count_out(s, n, 0);
    }
}

// ---- a candidate that adopts what another brings

// Whether the item is v then. (`same` is a fact of two kinds, here and below: one bit of the row goes by it, and no step.)
fn adopts_witness(same: bool, k: ident::ItemKind, r: regions::Row) -> bool
    ensures { bit result ≡ witness_as same k r.bits }
{
    if same { is_witness(k) } else { r.is_witness() }
}

// The smaller ready time and priority, preferred, and the item where the kind is the same.
fn adopted_row(r: regions::Row, c: Candidate, same: bool) -> regions::Row
    ensures { RowAdopting same c r result }
{
    let bits = RowBits {
        kind: r.kind(),
        witness: adopts_witness(same, c.item.kind, r),
        preferred: true,
        owns: r.owns(),
        mark: r.is_marked(),
    };
    regions::Row {
        ready: r.ready.min(c.ready),
        prio: r.prio.min(c.priority),
        bits: u64::from(bits),
        ..r
    }
}

// The candidate of c's connection at k, whose rows are those of w, adopts what c brings; `same` says that c is of k's kind.
pub fn adopt_in(s: &mut [u8], k: ident::Key, w: Window, c: Candidate, same: bool)
    requires { Kept s.old × Spans s.old (place (key_num k)) w.from w.to }
    ensures { Makes s.old s.new (λ t. has c.connection (at (key_num k) t).candidates ≡ true) (machine.adopted same (key_num k) (candidate_of c)) }
{
    if let Some(i) = store::rows::find_row(s, w, c.connection) {
        let r = store::rows::row_at(s, i);
        store::parts::set(s, i, adopted_row(r, c, same));
    }
}

// ---- the owner (each of `own`, `disown` and, above, `adopt_in` finds its row and stores it changed: one function over a closure of the row would say, in a
// law of three lines, what these three lines do)

// The row of who comes to own its request, and of who ceases to. (Here the bit is changed, and its number says by how much.)
fn owned_row(r: regions::Row, deadline: u64) -> regions::Row
    requires { r.bits < 32 }
    ensures { result ≡ with_deadline deadline (with_bits (r.bits + 8) r) }
{
    regions::Row {
        deadline,
        bits: r.bits + 8,
        ..r
    }
}

fn unowned_row(r: regions::Row) -> regions::Row
    ensures { result ≡ with_deadline 0 (with_bits (r.bits - 8) r) }
{
    regions::Row {
        deadline: 0,
        bits: r.bits.saturating_sub(8),
        ..r
    }
}

// The candidate of the connection n becomes the owner of the request at k, which has none.
pub fn own(s: &mut [u8], k: ident::Key, n: u64, deadline: u64)
    requires { Kept s.old }
    ensures { Makes s.old s.new (λ t. (has n (at (key_num k) t).candidates ≡ true) × ((at (key_num k) t).owner ≡ none)) (change (key_num k) (owned_until n deadline)) }
{
    if let Some(i) = find_row(s, regions::Key::from(k), n) {
        let r = store::rows::row_at(s, i);
        store::parts::set(s, i, owned_row(r, deadline));
        store::counting::recount(s, n, 0, 1);
    }
}

// The owner n of the request at k goes, where flag and package have gone.
pub fn disown(s: &mut [u8], k: ident::Key, n: u64)
    requires { Kept s.old }
    ensures { Makes s.old s.new (λ t. OwnedBare n (at (key_num k) t)) (change (key_num k) unowned) }
{
    if let Some(i) = find_row(s, regions::Key::from(k), n) {
        let r = store::rows::row_at(s, i);
        store::parts::set(s, i, unowned_row(r));
        store::counting::recount(s, n, 1, 0);
    }
}

// ---- every candidate of a request

// Every candidate of the request at k gets the ready time v.
pub fn ready_all(s: &mut [u8], k: ident::Key, v: u64)
    requires { Kept s.old }
    ensures { Makes s.old s.new (λ t. Unit {0}) (change (key_num k) (λ r. with_candidates (map (ready_at v) r.candidates) r)) }
{
    let key = regions::Key::from(k);
    let w = window_of(s, key);
    store::stamps::change_rows(
        s,
        w,
        |r| -> regions::Row
            ensures { result ≡ with_ready v r }
        { regions::Row { ready: v, ..r } },
    );
}

// The request at k, if there is one, gets the fallback mark. (Its rows' bits are changed, of whose numbers `marked_row` speaks.)
pub fn mark(s: &mut [u8], k: ident::Key)
    requires { Kept s.old }
    ensures { Makes s.old s.new (λ t. Unit {0}) (fail.mark (key_num k)) }
{
    let key = regions::Key::from(k);
    let w = window_of(s, key);
    store::stamps::change_rows(
        s,
        w,
        |r| -> regions::Row
            ensures { result ≡ marked_row r }
        {
            regions::Row {
                bits: r.bits % 16 + 16,
                ..r
            }
        },
    );
}

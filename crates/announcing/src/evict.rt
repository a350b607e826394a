// Which announcement gives way to a preferred one: of the unpreferred candidates that do not own their request, the one with the
// greatest (priority, key, connection) (document 01, "announce"). What a scan has found so far is a row, if there is one.
ghost use Rattle.std.specs.Prelude.{◌≡◌, ◌||◌, ◌≤◌};
ghost use Rattle.ident.specs.Words.{hash_num, key_num};
ghost use Rattle.machine.specs.Announce as machine;
ghost use Rattle.machine.specs.Wrapper as wrapper;
ghost use Rattle.store.specs.Flat.{Flat};
ghost use Rattle.store.specs.Gather.{key_at};
ghost use Rattle.store.specs.Image.{Shows};
ghost use Rattle.store.specs.Shown.{rows_in, Shown, Kept};
ghost use Rattle.requests.specs.Changes.{Tells};
ghost use Rattle.requests.specs.Windows.{Windowed};
ghost use Rattle.announcing.specs.Evicts.{entry_at, found, is_lower, key_after, protected, or_row, greatest_over, part};

use requests::windows;
use store::rows::Window;

// Whether a row's bits say that its candidate is preferred, or owns its request. (Of the bits, of which any may be given: a row's methods would ask for
// the row. `|` has no branch.)
pub fn stays(bits: u64) -> bool
    ensures { result ≡ protected bits }
{
    (bits / 4 % 2 == 1) | (bits / 8 % 2 == 1)
}

// Whether a row's bits or its priority alone tell that it is not greater than what has been found. Most rows of a scan end here, in one
// branch: `|` and `&` have none.
fn passed(best: Option<regions::Row>, r: regions::Row) -> bool
    ensures { result ≡ (protected r.bits || is_lower r best) }
{
    stays(r.bits) | best.is_some_and(|row| r.prio < row.prio)
}

// Whether a comes after b by key and connection.
fn key_after(a: regions::Row, b: regions::Row) -> bool
    ensures { result ≡ key_after a b }
{
    (regions::Key::from(b), b.conn) < (regions::Key::from(a), a.conn)
}

// Whether a comes after b by (priority, key, connection). (No derived order: in the store rows are in another, that of their keys. A type for
// this one would be made of both rows for each test, of which the first comparison decides nearly all.)
pub fn after(a: regions::Row, b: regions::Row) -> bool
    ensures { result ≡ machine.after (entry_at a) (entry_at b) }
{
    if b.prio < a.prio {
        return true;
    }
    if a.prio < b.prio {
        return false;
    }
    key_after(a, b)
}

// The greater of what has been found and of one row more.
fn greater(best: Option<regions::Row>, r: regions::Row) -> Option<regions::Row>
    ensures { found result ≡ or_row (found best) r }
{
    if passed(best, r) {
        return best;
    }
    if best.is_some_and(|row| !after(r, row)) {
        return best;
    }
    Some(r)
}

// The greatest of what has been found and of the rows of a window.
fn greatest_in(s: &[u8], w: Window, best: Option<regions::Row>) -> Option<regions::Row>
    requires { Shown s.now × (w.to ≤ rows_in s.now) }
    ensures { (f : Flat) → Shows s.now f → found result ≡ greatest_over (found best) (part w.from w.to f.rows) }
{
    let mut greatest = best;
    for i in w.from..w.to {
        let r = store::rows::row_at(s, i);
        greatest = greater(greatest, r);
    }
    greatest
}

// The victim at a hash, whose rows are those of w, under either kind.
#[tactic(auto, using(requests::proofs::Keeping::kept_shown))]
pub fn victim_in(s: &[u8], h: ident::Hash, w: windows::Windows) -> Option<regions::Row>
    requires { Kept s.now × Windowed s.now (hash_num h) w }
    ensures { Tells s.now (λ t. found result ≡ machine.greatest (machine.victims (machine.at_hash (hash_num h)) t)) }
{
    let victim = greatest_in(s, w.txid, None);
    greatest_in(s, w.wtxid, victim)
}

// The victim of the whole table.
#[tactic(auto, using(crate::proofs::Lent::kept_long, requests::proofs::Keeping::kept_shown))]
pub fn victim_anywhere(s: &[u8]) -> Option<regions::Row>
    requires { Kept s.now }
    ensures { Tells s.now (λ t. found result ≡ machine.greatest (machine.victims machine.anywhere t)) }
{
    let n = store::head::rows(s);
    let all = Window { from: 0, to: n };
    greatest_in(s, all, None)
}

// How many candidates of the table can be evicted. (A sum by the index. Tried as `filter` and `count`: for an owner of a store of 10,000 rows `sum` took 54 µs in place of 7.)
#[tactic(auto, using(crate::proofs::Lent::kept_long, requests::proofs::Keeping::kept_shown))]
pub fn evictable(s: &[u8]) -> u64
    requires { Kept s.now }
    ensures { Tells s.now (λ t. result ≡ wrapper.evictable t) }
{
    let n = store::head::rows(s);
    let mut m = 0;
    for i in 0..n {
        let r = store::rows::row_at(s, i);
        if !stays(r.bits) {
            m += 1;
        }
    }
    m
}

// ---- the victim's key

// The key of a row's request. (A name for the conversion of `regions`, whose clause is of its kind and its hash: this one is of the machine's key, as `store` has it.)
pub fn key_of(r: regions::Row) -> ident::Key
    ensures { key_num result ≡ key_at r }
{
    ident::Key::from(r)
}

// Requests that fail and go together: an owner that fails gets the deadline 0, which is over at any time, and stays until one pass over
// the rows takes out all owners with that deadline. One by one, each would move every row behind it.
ghost use Rattle.std.specs.Prelude.{◌≡◌, ◌≤◌, length, true};
ghost use Rattle.ident.specs.Words.{key_num};
ghost use Rattle.machine.specs.State.{owner_is};
ghost use Rattle.machine.specs.Table.{at};
ghost use Rattle.store.specs.Flat.{Flat};
ghost use Rattle.store.specs.Image.{Shows};
ghost use Rattle.store.specs.Shown.{rows_in, Shown, Kept};
ghost use Rattle.requests.specs.Changes.{Makes, Tells};
ghost use Rattle.postponing.specs.Lapses.{none_due, Timely, lapsed};

// Whether none of the n rows says an owner with the deadline 0.
fn none_due(s: &[u8], n: usize) -> bool
    requires { Shown s.now × (n ≤ rows_in s.now) }
    ensures { (f : Flat) → Shows s.now f → n ≡ length f.rows → result ≡ none_due f.rows }
{
    (0..n).all(|i| !crate::silent::is_due(store::rows::row_at(s, i), 0))
}

// Whether no owner has the deadline 0.
#[tactic(auto, using(announcing::proofs::Lent::kept_long, requests::proofs::Keeping::kept_shown))]
pub fn timely(s: &[u8]) -> bool
    requires { Kept s.now }
    ensures { result ≡ true → Tells s.now Timely }
{
    let n = store::head::rows(s);
    none_due(s, n)
}

// The owner n of the request at k fails and waits to go; every candidate of the hash gets the ready time clock.
pub fn lapse(s: &mut [u8], k: ident::Key, n: u64, clock: u64)
    requires { Kept s.old × Tells s.old (λ t. owner_is n (at (key_num k) t).owner ≡ true) }
    ensures { Makes s.old s.new (λ t. Unit {0}) (lapsed (key_num k) n clock) }
{
    let o = ident::same_hash_other_kind(k);
    failing::clear(s, k, n);
    requests::own(s, k, n, 0);
    requests::ready_all(s, k, clock);
    requests::ready_all(s, o, clock);
}

// announce at a key (document 01, "announce"): who is refused, who comes in, and who gives way.
ghost use Rattle.std.specs.Prelude.{◌≡◌, false, ◌||◌, leb};
ghost use Rattle.ident.specs.Words.{hash_num, key_num};
ghost use Rattle.machine.specs.Limits.{max_peer_announcements};
ghost use Rattle.machine.specs.State.{State, limits_of};
ghost use Rattle.machine.specs.Table.{held, held_by, is_candidate};
ghost use Rattle.machine.specs.Sound.{Sound};
ghost use Rattle.machine.specs.Announce as machine;
ghost use Rattle.store.specs.Gather.{key_at};
ghost use Rattle.store.specs.Image.{Writes};
ghost use Rattle.store.specs.Shown.{Kept};
ghost use Rattle.requests.specs.Changes.{candidate_of, Makes, Tells};
ghost use Rattle.requests.specs.Windows.{Windowed};
ghost use Rattle.announcing.specs.Answers.{Answered};
ghost use Rattle.announcing.specs.Enters.{Crowded, Goes, in_place_of, Decided};

use crate::evict;
use machine::limits::MAX_PEER_ANNOUNCEMENTS;
use requests::windows;
use requests::windows::Windows;

// How an announcement fares.
#[derive(Clone, Copy)]
enum Verdict {
    Refused,
    Enters,
    // It comes in, and the candidate of this row gives way to it.
    Replaces(regions::Row),
}

// The connection has announced the hash, whose rows are those of w, under either kind, or has as many announcements as it may.
fn barred(s: &[u8], h: ident::Hash, w: Windows, n: u64) -> bool
    requires { Kept s.now × Windowed s.now (hash_num h) w }
    ensures { Tells s.now (λ t. result ≡ (is_candidate n (hash_num h) t || leb max_peer_announcements (held_by n t))) }
{
    if windows::is_candidate_in(s, h, w, n) {
        return true;
    }
    requests::figures(s, n).held >= MAX_PEER_ANNOUNCEMENTS
}

// The hash, whose rows are those of w, has as many candidates as it may.
#[tactic(auto, using(crate::proofs::Lent::kept_long))]
pub fn crowded_in(s: &[u8], h: ident::Hash, w: Windows) -> bool
    requires { Kept s.now × Windowed s.now (hash_num h) w }
    ensures { Crowded s.now (hash_num h) result }
{
    windows::candidates_in(s, h, w) >= store::head::alternates(s)
}

// The hash has as many candidates as it may.
pub fn crowded(s: &[u8], h: ident::Hash) -> bool
    requires { Kept s.now }
    ensures { Crowded s.now (hash_num h) result }
{
    crowded_in(s, h, windows::windows_of(s, h))
}

// L announcements are held. (`gathering`, which stands above, tests it with those that wait beside the store.)
#[tactic(auto, using(crate::proofs::Lent::kept_long))]
fn full(s: &[u8]) -> bool
    requires { Kept s.now }
    ensures { (st : State) → Sound st → Writes s.now st → result ≡ leb st.limit (held st.table) }
{
    store::head::rows(s) >= store::head::limit(s)
}

// A preferred announcement comes in if there is one that gives way to it.
impl From<Option<regions::Row>> for Verdict {
    ghost from_gives = { λ victim v. v ≡ in_place_of victim };

    fn from(victim: Option<regions::Row>) -> Verdict {
        match victim {
            None => Verdict::Refused,
            Some(row) => Verdict::Replaces(row),
        }
    }
}

// The rows are scanned for a victim only where c is preferred and the hash, whose rows are those of w, or the tracker is full.
fn decide(s: &[u8], k: ident::Key, w: Windows, c: requests::Candidate) -> Verdict
    requires { Kept s.now × Windowed s.now (hash_num k.hash) w }
    ensures { (st : State) → Sound st → Writes s.now st → Decided (limits_of st) (key_num k) (candidate_of c) st.table result }
{
    let h = k.hash;
    if barred(s, h, w, c.connection) {
        return Verdict::Refused;
    }
    if crowded_in(s, h, w) {
        if c.preferred {
            return Verdict::from(evict::victim_in(s, h, w));
        }
        return Verdict::Refused;
    }
    if full(s) {
        if c.preferred {
            return Verdict::from(evict::victim_anywhere(s));
        }
        return Verdict::Refused;
    }
    Verdict::Enters
}

// Whether announce_at would let c in. (No derived `==`: a row has none, and it is one variant alone that is asked for.)
pub fn would_announce(s: &[u8], k: ident::Key, c: requests::Candidate) -> bool
    requires { Kept s.now }
    ensures { (st : State) → Sound st → Writes s.now st → result ≡ (machine.announce_at (limits_of st) (key_num k) (candidate_of c) st.table).reply }
{
    let w = windows::windows_of(s, k.hash);
    !matches!(decide(s, k, w, c), Verdict::Refused)
}

// The candidate of the row r goes, and c comes in at k.
fn replace(s: &mut [u8], r: regions::Row, k: ident::Key, c: requests::Candidate)
    requires { Kept s.old × Tells s.old (Goes r) × Tells s.old (λ t. is_candidate c.connection (hash_num k.hash) t ≡ false) }
    ensures { Makes s.old s.new (λ t. Unit {0}) (λ t. machine.push (key_num k) (candidate_of c) (machine.cut (key_at r) r.conn t)) }
{
    requests::cut(s, evict::key_of(r), r.conn);
    requests::push(s, k, c);
}

// Announces c at the key k of its item, the rows of whose hash are those of w, and says whether it came in. (Where another goes for it these rows have
// moved, and those of k are found again.)
pub fn announce_in(s: &mut [u8], k: ident::Key, w: Windows, c: requests::Candidate) -> bool
    requires { Kept s.old × Windowed s.old (hash_num k.hash) w }
    ensures { Answered s.old s.new result (λ m t. machine.announce_at m (key_num k) (candidate_of c) t) }
{
    match decide(s, k, w, c) {
        Verdict::Refused => return false,
        Verdict::Enters => requests::push_in(s, k, w.of_kind(k.kind), c),
        Verdict::Replaces(row) => replace(s, row, k, c),
    }
    true
}

// Announces c at the key k of its item, and says whether it came in.
pub fn announce_at(s: &mut [u8], k: ident::Key, c: requests::Candidate) -> bool
    requires { Kept s.old }
    ensures { Answered s.old s.new result (λ m t. machine.announce_at m (key_num k) (candidate_of c) t) }
{
    let w = windows::windows_of(s, k.hash);
    announce_in(s, k, w, c)
}

// failed_package_claims on the bytes of a sound store (document 01, "failed_package_claims").
//
// The claims of the connection are noted before any fails: they are at most 100, since it owns no more requests, and one pass over the
// rows finds them. Each hash that is given is then compared with theirs, whatever the number of places.
//
// Connection and clock are arguments of their own, as document 01 gives them to each of these steps.
ghost use Rattle.std.specs.Prelude.{◌≡◌, ◌+◌, ◌*◌, ◌≤◌, ◌<◌, true, [], ◌∷◌, length, get_or};
ghost use Rattle.std.proofs.Math.Option.{none, some};
ghost use Rattle.ident.specs.Number.{Key, wtxid};
ghost use Rattle.ident.specs.Words.{hash_num};
ghost use Rattle.lent_lists.specs.Lists.{hashes_in};
ghost use Rattle.lent_lists.specs.Items.{items_in};
ghost use Rattle.machine.specs.Limits.{max_in_flight, max_parents, max_places, msg_pkg_txns};
ghost use Rattle.machine.specs.State.{owner_is};
ghost use Rattle.machine.specs.Table.{at, places_held};
ghost use Rattle.machine.specs.Call.{key_bytes};
ghost use Rattle.machine.specs.Package.{some_keys, fail_each, failed_with_parents, failed_package_claims};
ghost use Rattle.machine.specs.Wrapper.{is_type, packages_in};
ghost use Rattle.store.specs.Shown.{places_in, Kept};
ghost use Rattle.requests.specs.Changes.{Tells};
ghost use Rattle.package_stages.specs.Changes.{combined_of};
ghost use Rattle.announcing.specs.Answers.{KeysListed};
ghost use Rattle.claims.specs.Awaited.{awaiting, is_claim_row, ClaimNoted, key_found, ClaimsNoted, ListedOn, entries_in, given_in, hash_found, last_of, ClaimsFit};

use ident::connection::Connection;
use lent_lists::KEY;
use machine::limits::MAX_PEER_IN_FLIGHT;
use package_stages::Stage;

// The item type of a package's transactions (BIP 331).
const MSG_PKGTXNS: u32 = 6;

// Whether the row r is that of the connection n as the owner of a request with an Awaiting package.
fn is_claim(s: &[u8], n: u64, r: regions::Row) -> bool
    requires { Kept s.now }
    ensures { Tells s.now (λ t. result ≡ is_claim_row n t r) }
{
    if r.conn != n {
        return false;
    }
    if !r.owns() {
        return false;
    }
    let k = announcing::evict::key_of(r);
    let q = package_stages::request_at(s, k);
    q.stage == Some(Stage::Awaiting)
}

// The combined hash of the package of the request at the Wtxid key with hash h, where it is Awaiting. (Any hash where it is not: no Option,
// since those who ask have tested it.)
fn combined_of(s: &[u8], h: ident::Hash) -> ident::Hash
    requires { Kept s.now }
    ensures { Tells s.now (λ t. awaiting (at (wtxid (hash_num h)) t).«package» ≡ true → hash_num result ≡ combined_of (at (wtxid (hash_num h)) t).«package») }
{
    match package_stages::seek(s, h) {
        Ok(i) => package_stages::combined_at(s, i),
        Err(_) => h,
    }
}

// A claim of a connection: the hash of its key, and the combined hash of its package.
#[derive(Clone, Copy)]
struct Claim {
    key: ident::Hash,
    combined: ident::Hash,
}

// A connection has no more claims than this.
const MOST: usize = MAX_PEER_IN_FLIGHT as usize;

// Room for the claims of a connection.
fn room() -> [Claim; MOST] {
    let none = ident::Hash::from(regions::Quad::ZERO);
    let claim = Claim {
        key: none,
        combined: none,
    };
    [claim; MOST]
}

// Notes the claim of the row r, if it is one, behind m others; answers how many are noted then. (m beside the array: the walk counts
// them, and they are a slice once it is over.)
fn note_claim(s: &[u8], n: u64, r: regions::Row, claims: &mut [Claim; MOST], m: usize) -> usize
    requires { Kept s.now × Tells s.now (λ t. is_claim_row n t r ≡ true → m < max_in_flight) }
    ensures { ClaimNoted n r s.now claims.old claims.new m result }
{
    if is_claim(s, n, r) {
        let k = announcing::evict::key_of(r);
        let key = k.hash;
        let combined = combined_of(s, key);
        claims[m] = Claim { key, combined };
        m + 1
    } else {
        m
    }
}

// The claims of the connection n, in the order of keys.
fn claims_of<'a>(s: &[u8], n: u64, room: &'a mut [Claim; MOST]) -> &'a [Claim]
    requires { Kept s.now }
    ensures { ClaimsNoted n s.now result.now }
{
    let rows = store::head::rows(s);
    let mut m = 0;
    for i in 0..rows {
        let r = store::rows::row_at(s, i);
        m = note_claim(s, n, r, room, m);
    }
    &room[..m]
}

// The last claim noted with the combined hash that is given, if one is: of two, that at the greater key.
fn latest(claims: &[Claim], given: Option<ident::Hash>) -> Option<ident::Hash>
    ensures { key_found result ≡ last_of (hash_found given) claims.now }
{
    let c = given?;
    let claim = claims
        .iter()
        .rev()
        .find(|claim| lent_lists::same_hash(claim.combined, c))?;
    Some(claim.key)
}

// failed_with_parents at the Wtxid key with hash h, unless it has failed before; lists its keys in `out` behind c others: c says where the next key
// goes, since what is listed behind must not be written over.
fn fail_claim(
    s: &mut [u8],
    n: Connection,
    h: ident::Hash,
    clock: u64,
    out: &mut [u8],
    c: usize,
) -> usize
    requires { Kept s.old × (key_bytes * c ≤ length out.old) × Tells s.old (λ t. owner_is n.number (at (wtxid (hash_num h)) t).owner ≡ true
        → key_bytes * (c + (max_parents + 1)) ≤ length out.old) × (c ≤ (max_parents + 1) * max_places) }
    ensures { ListedOn s.old s.new out.old out.new c result (λ m t. failed_with_parents m (wtxid (hash_num h)) n.number clock t) }
{
    let k = ident::Key::from(ident::Wtxid(h));
    let q = package_stages::request_at(s, k);
    if !q.is_owned_by(n.number) {
        return c;
    }
    let x = c * KEY;
    let r = failing::failed_with_parents(s, k, n, clock, &mut out[x..]);
    c + r
}

// The same at the key of the last claim noted with the combined hash that an entry gives, if it gives one and there is such a claim.
fn fail_entry(
    s: &mut [u8],
    n: Connection,
    given: Option<ident::Hash>,
    clock: u64,
    claims: &[Claim],
    out: &mut [u8],
    c: usize,
) -> usize
    requires { Kept s.old × (key_bytes * c ≤ length out.old)
        × ((k : Key) → last_of (hash_found given) claims.now ≡ some k
        → Tells s.old (λ t. owner_is n.number (at k t).owner ≡ true → key_bytes * (c + (max_parents + 1)) ≤ length out.old)) × (c ≤ (max_parents + 1) * max_places) }
    ensures { ListedOn s.old s.new out.old out.new c result
        (λ m t. fail_each m n.number clock (some_keys (last_of (hash_found given) claims.now ∷ [])) t) }
{
    match latest(claims, given) {
        Some(h) => fail_claim(s, n, h, clock, out, c),
        None => c,
    }
}

// A list that gives combined hashes: hashes, 32 bytes each, or items, 40 bytes each, of which those of type 6 give theirs.
#[derive(Clone, Copy)]
enum Given<'a> {
    Hashes(&'a [u8]),
    Items(&'a [u8]),
}

impl Given<'_> {
    // How many entries it has.
    fn count(self) -> usize
        ensures { result ≡ length (entries_in self.entry) }
    {
        match self {
            Given::Hashes(bytes) => lent_lists::hashes(bytes),
            Given::Items(bytes) => lent_lists::items(bytes),
        }
    }

    // The combined hash that the i-th entry gives, if it gives one.
    fn get(self, i: usize) -> Option<ident::Hash>
        requires { i < length (entries_in self) }
        ensures { hash_found result ≡ get_or (entries_in self.entry) i none }
    {
        match self {
            Given::Hashes(bytes) => Some(lent_lists::hash_in(bytes, i)),
            Given::Items(bytes) => {
                let item = lent_lists::item_at(bytes, i);
                (item.kind == ident::ItemKind::Other(MSG_PKGTXNS)).then_some(item.hash)
            }
        }
    }
}

// The claims noted fail, in the order in which their combined hashes are given.
fn fail_given(
    s: &mut [u8],
    n: Connection,
    given: Given,
    clock: u64,
    claims: &[Claim],
    out: &mut [u8],
) -> usize
    requires { Kept s.old × ClaimsFit (length (given_in given)) s.old out.old × ClaimsNoted n.number s.old claims.now }
    ensures { KeysListed s.old s.new out.old out.new result (λ m t. failed_package_claims m n.number (given_in given.entry) clock t) }
{
    let count = given.count();
    let mut c = 0;
    for i in 0..count {
        c = fail_entry(s, n, given.get(i), clock, claims, out, c);
    }
    c
}

// The Awaiting claims of the connection n with one of the combined hashes given fail.
fn fail_claims(s: &mut [u8], n: Connection, given: Given, clock: u64, out: &mut [u8]) -> usize
    requires { Kept s.old × ClaimsFit (length (given_in given)) s.old out.old }
    ensures { KeysListed s.old s.new out.old out.new result (λ m t. failed_package_claims m n.number (given_in given.entry) clock t) }
{
    let mut room = room();
    let claims = claims_of(s, n.number, &mut room);
    fail_given(s, n, given, clock, claims, out)
}

// The Awaiting claims of the connection n with one of the combined hashes given, 32 bytes each, fail, and the parents of each are
// announced for n. Lists in `out` the key of each and behind it its parents' keys; answers how many these are.
pub fn failed_package_claims(
    s: &mut [u8],
    n: Connection,
    given: &[u8],
    clock: u64,
    out: &mut [u8],
) -> usize
    requires { Kept s.old × (key_bytes * ((max_parents + 1) * places_in s.old) ≤ length out.old) }
    ensures { KeysListed s.old s.new out.old out.new result (λ m t. failed_package_claims m n.number (hashes_in given.now) clock t) }
{
    fail_claims(s, n, Given::Hashes(given), clock, out)
}

// The same for the packages among items, 40 bytes each: those of type 6, by their hashes.
pub fn packages_not_found(
    s: &mut [u8],
    n: Connection,
    items: &[u8],
    clock: u64,
    out: &mut [u8],
) -> usize
    requires { Kept s.old × Tells s.old (λ t. key_bytes * (length (packages_in (items_in items.now)) + max_parents * places_held t) ≤ length out.old) }
    ensures { KeysListed s.old s.new out.old out.new result (λ m t. failed_package_claims m n.number (packages_in (items_in items.now)) clock t) }
{
    fail_claims(s, n, Given::Items(items), clock, out)
}

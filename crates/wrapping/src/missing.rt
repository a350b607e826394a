// transaction_not_found: the items that a connection does not have. An item of package information fails with its parents, any other
// item with a key just fails; then the claims of the packages among the items fail.
//
// s, n, items, clock and out are arguments of their own, as document 01's call gives them: no step keeps them, and a struct of them would hold
// the lends of both the store and the answer, to be taken apart in each step.
ghost use Rattle.std.specs.Prelude.{◌≡◌, ◌+◌, ◌*◌, ◌≤◌, length, true};
ghost use Rattle.std.proofs.Math.Option.{some};
ghost use Rattle.ident.specs.Words.{key_num, item_num};
ghost use Rattle.machine.specs.Limits.{max_parents, msg_anc_pkg_info};
ghost use Rattle.machine.specs.Call.{key_bytes};
ghost use Rattle.machine.specs.Wrapper as machine;
ghost use Rattle.machine.specs.Wrapper.{is_type};
ghost use Rattle.store.specs.Shown.{places_in, Kept};
ghost use Rattle.lent_lists.specs.Items.{items_in};
ghost use Rattle.announcing.specs.Answers.{KeysListed};
ghost use Rattle.requests.specs.Changes.{Tells};
ghost use Rattle.wrapping.specs.Wraps.{Roomy, info_listed};
ghost use Rattle.postponing.specs.Lapses.{Timely};
ghost use Rattle.wrapping.specs.Lapses.{all_keyed};

use crate::lapsing;
use ident::connection::Connection;
use lent_lists::KEY;

// The item type of package information (BIP 331).
const MSG_ANCPKGINFO: u32 = 7;

// Whether an item is package information.
fn is_info(item: ident::Item) -> bool
    ensures { result ≡ is_type msg_anc_pkg_info item.kind }
{
    item.kind == ident::ItemKind::Other(MSG_ANCPKGINFO)
}

// failed, and the key listed in `out` if it was carried out. Answers how many keys these are.
fn fail_listed(s: &mut [u8], k: ident::Key, n: u64, clock: u64, out: &mut [u8]) -> usize
    requires { Kept s.old × (key_bytes ≤ length out.old) }
    ensures { KeysListed s.old s.new out.old out.new result (λ m t. machine.fail_keyed (some (key_num k)) n clock t) }
{
    if failing::failed(s, k, n, clock) {
        lent_lists::put_key(out, 0, k);
        return 1;
    }
    0
}

// Package information that n was asked for fails with its parents.
fn fail_info(s: &mut [u8], k: ident::Key, n: Connection, clock: u64, out: &mut [u8]) -> usize
    requires { Kept s.old × Roomy s.old out.old }
    ensures { KeysListed s.old s.new out.old out.new result (λ m t. info_listed m (key_num k) n.number clock t) }
{
    if !failing::info_owned(s, k, n.number) {
        return 0;
    }
    failing::failed_with_parents(s, k, n, clock, out)
}

// One item that is not found. Lists in `out` the keys of what failed, and answers how many these are.
fn not_found_one(
    s: &mut [u8],
    n: Connection,
    item: ident::Item,
    clock: u64,
    out: &mut [u8],
) -> usize
    requires { Kept s.old × Roomy s.old out.old }
    ensures { KeysListed s.old s.new out.old out.new result (λ m t. machine.not_found_one m n.number clock (item_num item) t) }
{
    if is_info(item) {
        let k = ident::Key::from(ident::Wtxid(item.hash));
        return fail_info(s, k, n, clock, out);
    }
    match ident::key_of(item) {
        Some(k) => fail_listed(s, k, n.number, clock, out),
        None => 0,
    }
}

// The items one after the other, each by itself. Lists in `out` the keys of what failed, and answers how many these are.
fn fail_in_turn(s: &mut [u8], n: Connection, items: &[u8], clock: u64, out: &mut [u8]) -> usize
    requires { Kept s.old × (key_bytes * (length (items_in items.now) + max_parents * places_in s.old) ≤ length out.old) }
    ensures { KeysListed s.old s.new out.old out.new result (λ m t. machine.not_found_each m n.number clock (items_in items.now) t) }
{
    let count = lent_lists::items(items);
    let mut kept = 0;
    for i in 0..count {
        let item = lent_lists::item_at(items, i);
        let a = kept * KEY;
        let c = not_found_one(s, n, item, clock, &mut out[a..]);
        kept += c;
    }
    kept
}

// ---- requests that fail together

// So few requests go one by one: two passes over the rows cost more.
const FEW: usize = 4;

// Items are looked at beforehand for a small part of what it costs to fail one by one: one for so many rows that would move, and one for so many items.
const ROWS: usize = 800;

const ITEMS: usize = 8;

// Whether an item is none of package information.
fn all_keyed(items: &[u8]) -> bool
    ensures { result ≡ all_keyed (items_in items.now) }
{
    (0..lent_lists::items(items)).all(|i| !is_info(lent_lists::item_at(items, i)))
}

// Whether the connection n owns the request under the key of the item.
fn is_owned(s: &[u8], n: u64, item: ident::Item) -> bool
    requires { Kept s.now }
{
    match ident::key_of(item) {
        Some(k) => package_stages::request_at(s, k).is_owned_by(n),
        None => false,
    }
}

// Whether n owns more than a few requests of the first `most` items. (Its answer decides on cost alone: no clause.)
fn many_owned(s: &[u8], n: u64, items: &[u8], most: usize) -> bool
    requires { Kept s.now }
{
    let mut few = FEW;
    for i in 0..lent_lists::items(items).min(most) {
        if is_owned(s, n, lent_lists::item_at(items, i)) {
            if few == 0 {
                return true;
            }
            few -= 1;
        }
    }
    false
}

// Whether the requests of n that fail may go together: more than a few can be among the items, none of which is package information, whose
// parents come in at once; and no owner has the deadline of those that wait.
#[tactic(auto, using(announcing::proofs::Lent::kept_long))]
fn may_wait(s: &[u8], n: u64, items: &[u8]) -> bool
    requires { Kept s.now }
    ensures { result ≡ true → (all_keyed (items_in items.now) ≡ true) × Tells s.now Timely }
{
    if lent_lists::items(items) <= FEW {
        return false;
    }
    if requests::figures(s, n).owned <= FEW as u64 {
        return false;
    }
    let most = FEW + 1 + store::head::rows(s) / ROWS + lent_lists::items(items) / ITEMS;
    if !many_owned(s, n, items, most) {
        return false;
    }
    all_keyed(items) && postponing::lapsing::timely(s)
}

// The items that the connection n does not have, up to their packages. Lists in `out` the keys of what failed, and answers how many
// these are.
pub fn not_found_each(
    s: &mut [u8],
    n: Connection,
    items: &[u8],
    clock: u64,
    out: &mut [u8],
) -> usize
    requires { Kept s.old × (key_bytes * (length (items_in items.now) + max_parents * places_in s.old) ≤ length out.old) }
    ensures { KeysListed s.old s.new out.old out.new result (λ m t. machine.not_found_each m n.number clock (items_in items.now) t) }
{
    if !may_wait(s, n.number, items) {
        return fail_in_turn(s, n, items, clock, out);
    }
    let kept = lapsing::lapse_each(s, n.number, items, clock, out);
    postponing::silent::drop_due(s, 0);
    kept
}

// The items that the connection n does not have, then the claims of n to the packages among them. Lists in `out` the keys of what failed,
// and behind each its parents' keys where it has some; answers how many these are. Nothing fails that n does not own, so that no item is
// looked at if n owns nothing.
pub fn transaction_not_found(
    s: &mut [u8],
    n: Connection,
    items: &[u8],
    clock: u64,
    out: &mut [u8],
) -> usize
    requires { Kept s.old × (key_bytes * (length (items_in items.now) + max_parents * places_in s.old) ≤ length out.old) }
    ensures { KeysListed s.old s.new out.old out.new result (λ m t. machine.not_found m n.number clock (items_in items.now) t) }
{
    if requests::figures(s, n.number).owned == 0 {
        return 0;
    }
    let kept = not_found_each(s, n, items, clock, out);
    let a = kept * KEY;
    let c = claims::waiting::packages_not_found(s, n, items, clock, &mut out[a..]);
    kept + c
}

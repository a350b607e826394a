// Items whose requests fail and wait to go together (`postponing::lapsing`).
ghost use Rattle.std.specs.Prelude.{◌≡◌, ◌*◌, ◌≤◌, length};
ghost use Rattle.ident.specs.Words.{key_num, item_num};
ghost use Rattle.ident.specs.Number.{key_of};
ghost use Rattle.machine.specs.Table.{at};
ghost use Rattle.machine.specs.Call.{key_bytes};
ghost use Rattle.store.specs.Shown.{Kept};
ghost use Rattle.lent_lists.specs.Items.{items_in};
ghost use Rattle.requests.specs.Changes.{Tells};
ghost use Rattle.announcing.specs.Answers.{KeysListed};
ghost use Rattle.postponing.specs.Lapses.{lapses};
ghost use Rattle.wrapping.specs.Lapses.{lapse_one, lapse_each};

use lent_lists::KEY;
use package_stages::Stage;

// Whether the connection n fails the request at k: it owns it, with no Enqueued package, and it does not wait already.
fn lapses(s: &[u8], k: ident::Key, n: u64) -> bool
    requires { Kept s.now }
    ensures { Tells s.now (λ t. result ≡ lapses n (at (key_num k) t)) }
{
    let r = package_stages::request_at(s, k);
    r.is_owned_by(n) && r.stage != Some(Stage::Enqueued) && r.is_alive(0)
}

// What n owns under the key of the item fails and waits to go, and the key is listed in `out`. Answers how many keys these are.
fn lapse_item(s: &mut [u8], n: u64, item: ident::Item, clock: u64, out: &mut [u8]) -> usize
    requires { Kept s.old × (key_bytes ≤ length out.old) }
    ensures { KeysListed s.old s.new out.old out.new result (λ m t. lapse_one n clock (key_of (item_num item)) t) }
{
    let Some(k) = ident::key_of(item) else {
        return 0;
    };
    if !lapses(s, k, n) {
        return 0;
    }
    postponing::lapsing::lapse(s, k, n, clock);
    lent_lists::put_key(out, 0, k);
    1
}

// The items one after the other. Lists in `out` the keys of what fails, and answers how many these are.
pub fn lapse_each(s: &mut [u8], n: u64, items: &[u8], clock: u64, out: &mut [u8]) -> usize
    requires { Kept s.old × (key_bytes * length (items_in items.now) ≤ length out.old) }
    ensures { KeysListed s.old s.new out.old out.new result (λ m t. lapse_each n clock (items_in items.now) t) }
{
    let count = lent_lists::items(items);
    let mut kept = 0;
    for i in 0..count {
        let item = lent_lists::item_at(items, i);
        let a = kept * KEY;
        let c = lapse_item(s, n, item, clock, &mut out[a..]);
        kept += c;
    }
    kept
}

// announce_transactions: the items that a connection announces in one message, each with the priority that the host drew for it.
ghost use Rattle.std.specs.Prelude.{◌≡◌, true, ◌+◌, ◌*◌, ◌≤◌, ◌<◌, leb, length};
ghost use Rattle.ident.specs.Words.{item_num};
ghost use Rattle.words.specs.Words.{words};
ghost use Rattle.machine.specs.Limits.{max_in_flight, source_delay};
ghost use Rattle.machine.specs.Table as table;
ghost use Rattle.machine.specs.Wrapper as machine;
ghost use Rattle.store.specs.Image.{Bytes};
ghost use Rattle.store.specs.Shown.{Kept};
ghost use Rattle.lent_lists.specs.Items.{offers_in};
ghost use Rattle.requests.specs.Changes.{candidate_of, Tells};
ghost use Rattle.announcing.specs.Falls.{most_listed, VictimsIn};
ghost use Rattle.gathering.specs.Aside.{Empty};
ghost use Rattle.claims.specs.Changes.{Becomes};
ghost use Rattle.wrapping.specs.Batches.{between, announced, Offers, Collects, Announced};
ghost use Rattle.wrapping.specs.Swaps.{Whole, Swaps, Went, Settled};

use announcing::foremost::{MOST, Victims};
use gathering::beside::Fare;
use gathering::rows::Waiting;
use ident::connection::Connection;
use machine::clock::Clock;
use machine::limits::{MAX_PEER_IN_FLIGHT, SOURCE_DELAY};
use regions::listed::Records;

// What holds of every item of a batch. source: a wtxid source exists; late: the connection owned as many requests as it may before. (Each of
// the bools is a ground for a delay, and none says whether another field holds.)
#[derive(Clone, Copy)]
struct Terms {
    connection: Connection,
    clock: Clock,
    preferred: bool,
    source: bool,
    late: bool,
}

// Items that are announced on the same terms, and the priorities that the host drew for them: the shorter list decides how many offers these
// are. (A slice in a struct does not say by itself that bytes are bytes. The first item of a part goes beside the batch: the parts are told by where they begin
// and end in it.)
#[derive(Clone, Copy)]
struct Batch<'a> {
    terms: Terms,
    items: &'a [u8],
    priorities: &'a [u8],
    ghost bytes: { Bytes items.now × Bytes priorities.now },
}

impl<'a> Batch<'a> {
    fn count(self) -> usize
        ensures { result ≡ length (offers_in self.entry.items.now self.entry.priorities.now) }
    {
        lent_lists::offers(self.items, self.priorities)
    }
}

// How long an item waits: a delay for each of three grounds.
fn delay(a: Terms, item: ident::Item) -> u64
    ensures { (result ≡ machine.delay a.preferred a.source a.late (item_num item)) × (result ≤ 3 * source_delay) }
{
    let w = item.kind == ident::ItemKind::WTx;
    let n = u64::from(!a.preferred) + u64::from(a.source & !w) + u64::from(a.late);
    SOURCE_DELAY * n
}

// The candidate that an announced item makes.
fn offered(a: Terms, item: ident::Item, priority: u64) -> requests::Candidate
    ensures { candidate_of result ≡ machine.offered a.connection.number a.clock.time a.preferred a.source a.late (record { item = item_num item; priority = priority }) }
{
    let ready = a.clock.time + delay(a, item);
    requests::Candidate {
        connection: a.connection.number,
        item,
        ready,
        preferred: a.preferred,
        priority,
    }
}

// The connection n owns as many requests as it may.
fn overloaded(s: &[u8], n: Connection) -> bool
    requires { Kept s.now }
    ensures { Tells s.now (λ t. result ≡ leb max_in_flight (table.owned_by n.number t)) }
{
    let f = requests::figures(s, n.number);
    f.owned >= MAX_PEER_IN_FLIGHT
}

// The candidate that the i-th item makes.
fn offered_at(b: Batch, i: usize) -> requests::Candidate
    requires { i < length (offers_in b.items.now b.priorities.now) }
    ensures { Offers b.entry.terms (offers_in b.entry.items.now b.entry.priorities.now) i (candidate_of result) }
{
    let item = lent_lists::item_at(b.items, i);
    let priority = words::get(b.priorities, i);
    offered(b.terms, item, priority)
}

// Announces the i-th item by itself.
fn announce_one(s: &mut [u8], b: Batch, i: usize)
    requires { Kept s.old × (i < length (offers_in b.items.now b.priorities.now)) }
    ensures { Becomes s.old s.new (announced b.entry.terms (between i (i + 1) (offers_in b.entry.items.now b.entry.priorities.now))) }
{
    let c = offered_at(b, i);
    announcing::announce(s, c);
}

// Collects in `new`, which is empty, the rows of the items from the first on that can come in together. Answers which item is the first that cannot, or how many there are.
fn collect(s: &[u8], new: &mut Waiting, b: Batch, first: usize) -> usize
    requires { Kept s.now × Empty (words new.old.bytes) × (new.old.count ≡ 0) × (first ≤ length (offers_in b.items.now b.priorities.now)) }
    ensures { Collects s.now (words new.new.bytes) b.entry.terms (offers_in b.entry.items.now b.entry.priorities.now) first result new.new.count }
{
    let count = b.count();
    for i in first..count {
        if new.set_aside(s, offered_at(b, i)) == Fare::Alone {
            return i;
        }
    }
    count
}

// With fewer items a pass over the rows costs more than it spares.
const FEW: usize = 4;

// Announces some items from the first on: those together that nothing gives way to and that find room beside the store, and the next
// one, if there is one, by itself. Answers which comes next.
fn announce_some(s: &mut [u8], b: Batch, first: usize) -> usize
    requires { Kept s.old × (first < length (offers_in b.items.now b.priorities.now)) }
    ensures { Announced s.old s.new b.entry.terms (offers_in b.entry.items.now b.entry.priorities.now) first result }
{
    let count = b.count();
    if count - first < FEW {
        announce_one(s, b, first);
        return first + 1;
    }
    let mut new = Waiting::none();
    let next = collect(s, &mut new, b, first);
    gathering::coming::come_in(
        s,
        b.terms.connection.number,
        Records::new(&new.bytes, new.count),
    );
    if next < count {
        announce_one(s, b, next);
        return next + 1;
    }
    next
}

// ---- where L is held

// So many victims are listed at least, if there are as many.
const FEWEST: usize = 128;

// Whether it is worth while to list victims for the items from the first on: they are preferred, L is held, and the first of them does not
// have to take the place of another at its hash.
fn displaces(s: &[u8], b: Batch, first: usize) -> bool
    requires { Kept s.now × (first < length (offers_in b.items.now b.priorities.now)) }
    ensures { result ≡ true → Whole s.now × (b.entry.terms.preferred ≡ true) }
{
    if b.count() - first < FEW || !b.terms.preferred {
        return false;
    }
    let item = lent_lists::item_at(b.items, first);
    !announcing::keyed::crowded(s, item.hash) && gathering::beside::full(s, 0)
}

// Announces items from the first on, with the store left as it is: each that comes in waits in `new`, which is empty, and the next of the
// victims listed in `top` is to go. Answers which item comes next. (The loop is `collect`'s: one of both would take as a closure what lets an item in, and ask of it in
// clauses how what stands so far, which is not the same for the two, goes on at each Fare: longer than the loop.)
fn swap(s: &[u8], new: &mut Waiting, top: &Victims, b: Batch, first: usize) -> usize
    requires { Kept s.now × Whole s.now × VictimsIn s.now (words top.now.bytes) top.now.count
        × Empty (words new.old.bytes) × (new.old.count ≡ 0) × (first ≤ length (offers_in b.items.now b.priorities.now)) }
    ensures { Swaps s.now (words new.new.bytes) (words top.now.bytes) top.now.count b.entry.terms (offers_in b.entry.items.now b.entry.priorities.now) first result new.new.count }
{
    let count = b.count();
    for i in first..count {
        if new.defer(s, top, offered_at(b, i)) == Fare::Alone {
            return i;
        }
    }
    count
}

// Announces items from the first on: those that come in wait in `new`, which is empty, then the victims go, and one more pass lets in those that have waited. Answers
// which item comes next.
fn settle(s: &mut [u8], new: &mut Waiting, top: &Victims, b: Batch, first: usize) -> usize
    requires { Kept s.old × Whole s.old × VictimsIn s.old (words top.now.bytes) top.now.count
        × Empty (words new.old.bytes) × (new.old.count ≡ 0) × (first ≤ length (offers_in b.items.now b.priorities.now)) }
    ensures { Settled s.old s.new top.now.count b.entry.terms (offers_in b.entry.items.now b.entry.priorities.now) first result new.new.count }
{
    let next = swap(s, new, top, b, first);
    gathering::going::go(s, top, new.count);
    gathering::coming::come_in(
        s,
        b.terms.connection.number,
        Records::new(&new.bytes, new.count),
    );
    next
}

// How many victims are listed for a part of a batch, if the last one took n items: more than these, since it is likely to take about as many. (A list that is
// too long costs more than it spares, and so does a part that ends since its list does.)
fn victims_for(n: usize) -> usize
    ensures { (1 ≤ result) × (result ≤ most_listed) }
{
    (4 * n.min(MOST)).max(FEWEST).min(MOST)
}

// Announces some items from the first on, or none: the victims are found in one pass. Where nobody is left who can be evicted the other
// items change nothing. The item that ended the part, if a victim is left for it, is announced by itself at once: one that has a listed victim at its hash, or for which
// the next victim is its connection's own, would mostly be the first of another part and end that too.
fn announce_for_victims(s: &mut [u8], b: Batch, first: usize, last: usize) -> usize
    requires { Kept s.old × Whole s.old × (b.terms.preferred ≡ true) × (first < length (offers_in b.items.now b.priorities.now)) }
    ensures { Went s.old s.new b.entry.terms (offers_in b.entry.items.now b.entry.priorities.now) first result }
{
    let count = b.count();
    let mut top = Victims::none();
    let most = (count - first).min(victims_for(last));
    top.list(s, most);
    let m = top.count;
    if m == 0 {
        return count;
    }
    let mut new = Waiting::none();
    let end = settle(s, &mut new, &top, b, first);
    if (new.count == m) & (m < most) {
        return count;
    }
    if (new.count < m) & (end < count) {
        announce_one(s, b, end);
        return end + 1;
    }
    end
}

// Announces items from the first on, one at least; the part before took `last`. Answers which comes next.
fn announce_part(s: &mut [u8], b: Batch, first: usize, last: usize) -> usize
    requires { Kept s.old × (first < length (offers_in b.items.now b.priorities.now)) }
    ensures { Announced s.old s.new b.entry.terms (offers_in b.entry.items.now b.entry.priorities.now) first result }
{
    if !displaces(s, b, first) {
        return announce_some(s, b, first);
    }
    let next = announce_for_victims(s, b, first, last);
    if first < next {
        return next;
    }
    announce_some(s, b, first)
}

// Announces the items: a part that comes in together costs one pass over the rows. Whether the connection is overloaded is read before
// the first. The first part stands before the loop: what is called from two places has a frame of its own, and its arrays do not lie beside
// those of the test of the bytes. (The two bools are terms that document 01 gives the call: they count in a delay, and pick no step.)
pub fn announce_transactions(
    s: &mut [u8],
    n: Connection,
    clock: Clock,
    preferred: bool,
    source: bool,
    items: &[u8],
    priorities: &[u8],
)
    requires { Kept s.old }
    ensures { Becomes s.old s.new (λ m t. machine.announce_transactions m n.number clock.time preferred source (offers_in items.now priorities.now) t) }
{
    let late = overloaded(s, n);
    let b = Batch {
        terms: Terms {
            connection: n,
            clock,
            preferred,
            source,
            late,
        },
        items,
        priorities,
    };
    let count = b.count();
    if count == 0 {
        return;
    }
    let mut i = announce_part(s, b, 0, count);
    let mut last = i;
    // No range: how many items a part takes shows only behind it.
    while i < count {
        let next = announce_part(s, b, i, last);
        last = next - i;
        i = next;
    }
}

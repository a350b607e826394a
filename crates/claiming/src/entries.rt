// Entries in an answer buffer, 112 bytes each (docs/DECISIONS.md, 4), and the claim of one entry that writes it there.
//
// An entry's fields are words of lent bytes, laid out for the C interface: u or b is the buffer, w a field's place in it, n an entry's.
// A key and an item go through `lent_lists::put_record` and `record_at`, any other field through `words::put` and `words::get`.
ghost use Rattle.std.specs.Prelude.{◌≡◌, [], ◌∷◌, ◌+◌, ◌*◌, ◌/◌, ◌%◌, ◌≤◌, length};
ghost use Rattle.ident.specs.Number.{item_kind_of, kind_is, kind_number};
ghost use Rattle.ident.specs.Words.{key_num, item_num};
ghost use Rattle.words.specs.Words.{bytes_of, splice};
ghost use Rattle.machine.specs.Call.{key_bytes, entry_bytes};
ghost use Rattle.machine.specs.Step.{key_answer, entry_answer};
ghost use Rattle.store.specs.Shown.{Kept};
ghost use Rattle.claiming.specs.Claiming.{entry_of, item_answer, OneMore, key_from, item_from, entry_from, entries_in, Claims};

use machine::clock::Clock;

// Words of an entry, and its bytes.
pub const ENTRY: usize = 14;

pub const ENTRY_BYTES: usize = 8 * ENTRY;

// Where its fields stand among them, behind the key. (Public where Sending reads the connection of an entry by itself.)
pub const CONNECTION: usize = 5;

const ITEM: usize = 6;

const READY: usize = 11;

const PREFERRED: usize = 12;

const PRIORITY: usize = 13;

// Stores the key k from the word w on.
fn put_key(u: &mut [u8], w: usize, k: ident::Key)
    requires { 8 * w + key_bytes ≤ length u.old }
    ensures { u.new ≡ splice u.old (8 * w) (key_answer (key_num k)) }
{
    lent_lists::put_record(u, w, u64::from(k.kind), k.hash);
}

// Stores a connection and an item from the word w on.
fn put_item(u: &mut [u8], w: usize, connection: u64, item: ident::Item)
    requires { 8 * w + 48 ≤ length u.old }
    ensures { u.new ≡ splice u.old (8 * w) (item_answer connection (item_num item)) }
{
    words::put(u, w, connection);
    lent_lists::put_record(u, w + 1, u64::from(u32::from(item.kind)), item.hash);
}

// Stores three words from the word w on. (Three, as an owner and the end of an entry have: over a number of them its clause is of a list, and each call makes an array.)
pub fn put_three(u: &mut [u8], w: usize, x: u64, y: u64, z: u64)
    requires { 8 * w + 24 ≤ length u.old }
    ensures { u.new ≡ splice u.old (8 * w) (bytes_of (x ∷ y ∷ z ∷ [])) }
{
    words::put(u, w, x);
    words::put(u, w + 1, y);
    words::put(u, w + 2, z);
}

// Stores the entry e as the n-th of u.
pub fn put_entry(u: &mut [u8], n: usize, e: crate::Entry)
    requires { entry_bytes * n + entry_bytes ≤ length u.old }
    ensures { u.new ≡ splice u.old (entry_bytes * n) (entry_answer (entry_of e)) }
{
    let w = n * ENTRY;
    let c = e.candidate;
    put_key(u, w, e.key);
    put_item(u, w + CONNECTION, c.connection, c.item);
    put_three(u, w + READY, c.ready, u64::from(c.preferred), c.priority);
}

// Claims one entry, and writes it as the n-th of the answer if it is taken. Answers how many are written now.
pub fn claim_next(s: &mut [u8], clock: Clock, e: crate::Entry, out: &mut [u8], n: usize) -> usize
    requires { Kept s.old × (entry_bytes * n + entry_bytes ≤ length out.old) }
    ensures { OneMore s.old s.new out.old out.new clock.time (entry_of e) n result }
{
    if crate::claim_entry(s, clock, e) {
        put_entry(out, n, e);
        return n + 1;
    }
    n
}

// ---- entries in

// (Of a type from 2^32 = 4294967296 on what is left of it, as `item_from` has it: `lent_lists` reads such an item as an other one.)
fn item_kind(w: u64) -> ident::ItemKind
    ensures { result ≡ item_kind_of (w % 4294967296) }
{
    ident::ItemKind::from((w % 4294967296) as u32)
}

// The key from the word w on.
pub fn key_at(b: &[u8], w: usize) -> ident::Key
    requires { 8 * w + key_bytes ≤ length b.now }
    ensures { key_num result ≡ key_from b.now w }
{
    let (kind, hash) = lent_lists::record_at(b, w);
    let kind = ident::Kind::from(kind);
    ident::Key { kind, hash }
}

// The item from the word w on.
fn item_at(b: &[u8], w: usize) -> ident::Item
    requires { 8 * w + key_bytes ≤ length b.now }
    ensures { item_num result ≡ item_from b.now w }
{
    let (kind, hash) = lent_lists::record_at(b, w);
    let kind = item_kind(kind);
    ident::Item { kind, hash }
}

// How many entries the bytes hold.
pub fn entries(b: &[u8]) -> usize
    ensures { result ≡ length b.now / entry_bytes }
{
    b.len() / ENTRY_BYTES
}

// The i-th entry of the bytes.
pub fn entry_in(b: &[u8], i: usize) -> crate::Entry
    requires { entry_bytes * i + entry_bytes ≤ length b.now }
    ensures { entry_of result ≡ entry_from b.now i }
{
    let w = i * ENTRY;
    crate::Entry {
        key: key_at(b, w),
        candidate: requests::Candidate {
            connection: words::get(b, w + CONNECTION),
            item: item_at(b, w + ITEM),
            ready: words::get(b, w + READY),
            preferred: words::get(b, w + PREFERRED) != 0,
            priority: words::get(b, w + PRIORITY),
        },
    }
}

// Claims the entries that the bytes hold, in order, and writes those that are taken into the answer. Answers how many.
pub fn claim_bytes(s: &mut [u8], clock: Clock, checked: &[u8], out: &mut [u8]) -> usize
    requires { Kept s.old × (entry_bytes * (length checked.now / entry_bytes) ≤ length out.old) }
    ensures { Claims s.old s.new out.old out.new clock.time (entries_in checked.now) result }
{
    let count = entries(checked);
    let mut n = 0;
    for i in 0..count {
        let e = entry_in(checked, i);
        n = claim_next(s, clock, e, out, n);
    }
    n
}

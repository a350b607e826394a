// Lists in lent bytes (document 01, "Buffer needs in entries" and module 4): hashes that a call is given, 32 bytes each, items, 40 bytes
// each, and keys that it answers, 40 bytes each.
#![tactic(auto)]

ghost use Rattle.std.specs.Prelude.{◌≡◌, [], ◌∷◌, ◌++◌, ◌+◌, ◌*◌, ◌<◌, ◌≤◌, eqb, length, get_or, take, drop};
ghost use Rattle.words.specs.Words.{words, digits, number, bytes_of, splice};
ghost use Rattle.ident.specs.Number.{Item, kind_number, kind_is};
ghost use Rattle.ident.specs.Words.{hash_bytes, hash_num, key_num, item_num};
ghost use Rattle.machine.specs.Call.{key_bytes};
ghost use Rattle.machine.specs.Claim.{elem};
ghost use Rattle.machine.specs.Step.{key_answer};
ghost use Rattle.lent_lists.specs.Lists.{hashes_in, key_in};
ghost use Rattle.lent_lists.specs.Items.{item_kind_in, items_in, offers_in};

use machine::limits::MAX_PARENTS;

// ---- hashes in

// Words of a hash.
const HASH_WORDS: usize = ident::HASH_BYTES / 8;

// So many as stand whole in the bytes. (A function for each kind of list: the clause names the list.)
pub fn hashes(s: &[u8]) -> usize
    ensures { result ≡ length (hashes_in s.now) }
{
    s.len() / ident::HASH_BYTES
}

// The i-th hash. (By its index, no `as_chunks` of the bytes: the definitions of lists go by take and drop, and a law of chunks beside them would be longer than the index.)
pub fn hash_in(s: &[u8], i: usize) -> ident::Hash
    requires { i < length (hashes_in s.now) }
    ensures { hash_num result ≡ get_or (hashes_in s.now) i 0 }
{
    ident::hash_at(s, i * ident::HASH_BYTES)
}

// The derived test, which by this clause is one of the numbers.
pub fn same_hash(a: ident::Hash, b: ident::Hash) -> bool
    ensures { result ≡ eqb (hash_num a) (hash_num b) }
{
    a == b
}

// Whether the i-th hash is h. (Its first word is tested where it stands: two hashes mostly differ there, and no more is read then. The derived test alone reads all four words each time.)
fn is_hash(s: &[u8], i: usize, h: ident::Hash) -> bool
    requires { i < length (hashes_in s.now) }
    ensures { result ≡ eqb (get_or (hashes_in s.now) i 0) (hash_num h) }
{
    words::get(s, i * HASH_WORDS) == h.words[0] && same_hash(hash_in(s, i), h)
}

// Whether the i-th hash is one of those before it.
pub fn occurs_before(s: &[u8], i: usize) -> bool
    requires { i < length (hashes_in s.now) }
    ensures { result ≡ elem (get_or (hashes_in s.now) i 0) (take i (hashes_in s.now)) }
{
    let h = hash_in(s, i);
    (0..i).any(|j| is_hash(s, j, h))
}

// ---- a word and a hash

// Words of a key and of an item: the number of its kind, and its hash.
pub const RECORD: usize = KEY / 8;

// Stores a word and the hash h behind it, from the word w on.
pub fn put_record(u: &mut [u8], w: usize, word: u64, h: ident::Hash)
    requires { 8 * w + key_bytes ≤ length u.old }
    ensures { u.new ≡ splice u.old (8 * w) (bytes_of (word ∷ []) ++ digits 256 hash_bytes (hash_num h)) }
{
    words::put(u, w, word);
    ident::put_hash(u, w * 8 + 8, h);
}

// The word w and the hash behind it.
pub fn record_at(b: &[u8], w: usize) -> (u64, ident::Hash)
    requires { 8 * w + key_bytes ≤ length b.now }
    ensures word { result.0 ≡ get_or (words b.now) w 0 }
    ensures hash { hash_num result.1 ≡ number 256 (take hash_bytes (drop (w * 8 + 8) b.now)) }
{
    (words::get(b, w), ident::hash_at(b, w * 8 + 8))
}

// ---- items in, and their priorities

// Bytes of 100 hashes, the longest list that a call takes; of a key, and of 100 keys.
pub const LIST: usize = MAX_PARENTS * ident::HASH_BYTES;

pub const KEY: usize = 40;

pub const KEYS: usize = MAX_PARENTS * KEY;

// Bytes of an item, and of a priority.
pub const ITEM: usize = 40;

const PRIORITY: usize = 8;

// Type numbers have 32 bits.
const TYPES: u64 = 0x1_0000_0000;

pub fn items(b: &[u8]) -> usize
    ensures { result ≡ length (items_in b.now) }
{
    b.len() / ITEM
}

// The kind that a type's word names. From 2^32 on it is an other item's, so that every item can be given. (No From: ItemKind's is of a type number, which has 32 bits.)
fn kind_in(w: u64) -> ident::ItemKind
    ensures { result ≡ item_kind_in w }
{
    match u32::try_from(w) {
        Ok(t) => ident::ItemKind::from(t),
        Err(_) => ident::ItemKind::Other((w % TYPES) as u32),
    }
}

pub fn item_at(b: &[u8], i: usize) -> ident::Item
    requires { i < length (items_in b.now) }
    ensures { (d : Item) → item_num result ≡ get_or (items_in b.now) i d }
{
    let (kind, hash) = record_at(b, i * RECORD);
    let kind = kind_in(kind);
    ident::Item { kind, hash }
}

// How many items have a priority: the shorter list decides.
pub fn offers(b: &[u8], priorities: &[u8]) -> usize
    ensures { result ≡ length (offers_in b.now priorities.now) }
{
    items(b).min(priorities.len() / PRIORITY)
}

// ---- keys out

// Stores the key k as the n-th of u.
pub fn put_key(u: &mut [u8], n: usize, k: ident::Key)
    requires { key_bytes * n + key_bytes ≤ length u.old }
    ensures { u.new ≡ splice u.old (key_bytes * n) (key_answer (key_num k)) }
{
    put_record(u, n * RECORD, u64::from(k.kind), k.hash);
}

// ---- keys back

// The i-th key of u, as an answer has it.
pub fn key_at(u: &[u8], i: usize) -> ident::Key
    requires { key_bytes * i + key_bytes ≤ length u.now }
    ensures { key_num result ≡ key_in (take key_bytes (drop (key_bytes * i) u.now)) }
{
    let (kind, hash) = record_at(u, i * RECORD);
    let kind = ident::Kind::from(kind);
    ident::Key { kind, hash }
}

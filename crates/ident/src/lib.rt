// Hashes, keys and items: module 1 of document 01 ("What a state holds").
//
// A hash is 32 bytes read as a number, a key is a hash as Txid or as Wtxid, an item is what an inventory entry names. Each contract
// says what a function does to those numbers, by the definitions of specs/: nothing is promised of a hash but its number, and
// proofs/Words.antt has the law that two hashes of one number are equal.
#![tactic(auto)]

ghost use Rattle.std.specs.Prelude.{◌≡◌, ◌+◌, ◌≤◌, length, take, drop};
ghost use Rattle.std.specs.Cmp.{partial_order_from_own_ties};
ghost use Rattle.std.specs.Cmp.Rules.{comparing};
ghost use Rattle.std.specs.Ordering.{on, as_partial_cmp};
ghost use Rattle.std.proofs.Common.{rules};
ghost use Rattle.ident.specs.Number.{txid, wtxid, kind_number, kind_is, swap, other, type_of, item_kind_of, is_plain, kind_of, key_of};
ghost use Rattle.words.specs.Words.{number, digits, splice};
ghost use Rattle.ident.specs.Words.{hash_bytes, hash_num, key_num, item_num, maybe_kind, maybe_key_num};
ghost use Rattle.ident.specs.Compare.{high_first, high_first_ties};

use std::cmp::Ordering;

pub mod connection;

// Which of a transaction's two identities a hash is.
#[derive(Clone, Copy, Debug, PartialEq, Eq, PartialOrd, Ord)]
pub enum Kind {
    Txid,
    Wtxid,
}

// 32 bytes as a number: word 3 is the most significant. (No fields from the most significant down, which a derive would put in order, as a `regions::Quad` has them: `words` is a public
// field, and another form would ask its readers to change.)
#[derive(Clone, Copy, Debug, PartialEq, Eq)]
pub struct Hash {
    pub words: [u64; 4],
}

#[derive(Clone, Copy, Debug, PartialEq, Eq)]
pub struct Txid(pub Hash);

#[derive(Clone, Copy, Debug, PartialEq, Eq)]
pub struct Wtxid(pub Hash);

// What a request is filed under. In the order of its fields, every Txid key comes before every Wtxid key.
#[derive(Clone, Copy, Debug, PartialEq, Eq, PartialOrd, Ord)]
pub struct Key {
    pub kind: Kind,
    pub hash: Hash,
}

// What an inventory item names: t, v, w, or any other type with its number.
#[derive(Clone, Copy, Debug, PartialEq, Eq)]
pub enum ItemKind {
    Transaction,
    WitnessTransaction,
    WTx,
    Other(u32),
}

#[derive(Clone, Copy, Debug, PartialEq, Eq)]
pub struct Item {
    pub kind: ItemKind,
    pub hash: Hash,
}

// The type numbers of the three kinds that have a key; MSG_WITNESS_TX is of BIP 144, MSG_WTX of BIP 339.
pub const MSG_TX: u32 = 1;

pub const MSG_WITNESS_TX: u32 = 0x4000_0001;

pub const MSG_WTX: u32 = 5;

// ---- A hash and its bytes

pub const HASH_BYTES: usize = 32;

// The hash whose bytes stand from index a on.
pub fn hash_at(s: &[u8], a: usize) -> Hash
    requires { a + hash_bytes ≤ length s.now }
    ensures { hash_num result ≡ number 256 (take hash_bytes (drop a s.now)) }
{
    let part = &s[a..a + HASH_BYTES];
    Hash {
        words: [
            words::get(part, 0),
            words::get(part, 1),
            words::get(part, 2),
            words::get(part, 3),
        ],
    }
}

impl From<&[u8; HASH_BYTES]> for Hash {
    ghost from_gives = { λ b h. hash_num h ≡ number 256 b.now };

    fn from(bytes: &[u8; HASH_BYTES]) -> Hash {
        hash_at(bytes, 0)
    }
}

// Stores the bytes of h from index a on.
pub fn put_hash(s: &mut [u8], a: usize, h: Hash)
    requires { a + hash_bytes ≤ length s.old }
    ensures { s.new ≡ splice s.old a (digits 256 hash_bytes (hash_num h)) }
{
    let part = &mut s[a..a + HASH_BYTES];
    words::put(part, 0, h.words[0]);
    words::put(part, 1, h.words[1]);
    words::put(part, 2, h.words[2]);
    words::put(part, 3, h.words[3]);
}

impl From<Hash> for [u8; HASH_BYTES] {
    ghost from_gives = { λ h b. number 256 b ≡ hash_num h };

    fn from(h: Hash) -> [u8; HASH_BYTES] {
        let mut bytes = [0u8; HASH_BYTES];
        put_hash(&mut bytes, 0, h);
        bytes
    }
}

// ---- Hashes in the order of their numbers

// Word 3 is the most significant, so the words are compared from the last one down, unlike the order that a derive takes.
impl Ord for Hash {
    ghost cmp = { on (λ h. h.words) high_first };

    ghost total = { Prim.search (comparing, rules) };

    ghost matches_partial_cmp = { Prim.search (comparing, rules) };

    ghost matches_eq = { λ a b. high_first_ties a.words b.words };

    fn cmp(&self, other: &Hash) -> Ordering {
        let x = self.words;
        let y = other.words;
        x[3].cmp(&y[3])
            .then(x[2].cmp(&y[2]))
            .then(x[1].cmp(&y[1]))
            .then(x[0].cmp(&y[0]))
    }
}

impl PartialOrd for Hash {
    ghost partial_cmp = { as_partial_cmp (on (λ h. h.words) high_first) };

    ghost laws = { partial_order_from_own_ties (Prim.search (comparing, rules)) (λ a b. high_first_ties a.words b.words) };

    fn partial_cmp(&self, other: &Hash) -> Option<Ordering> {
        Some(self.cmp(other))
    }
}

// ---- Kinds and their numbers

impl From<Kind> for u64 {
    ghost from_gives = { λ k n. n ≡ kind_number k };

    fn from(k: Kind) -> u64 {
        k as u64
    }
}

// Any number but 0 is Wtxid's: each reader of a number, from C too, promises that.
impl From<u64> for Kind {
    ghost from_gives = { λ n k. k ≡ kind_is n };

    fn from(n: u64) -> Kind {
        if n == 0 { Kind::Txid } else { Kind::Wtxid }
    }
}

// ---- Keys

fn swapped(k: Kind) -> Kind
    ensures { result ≡ swap k }
{
    match k {
        Kind::Txid => Kind::Wtxid,
        Kind::Wtxid => Kind::Txid,
    }
}

pub fn same_hash_other_kind(k: Key) -> Key
    ensures { key_num result ≡ other (key_num k) }
{
    Key {
        kind: swapped(k.kind),
        hash: k.hash,
    }
}

// (These two differ in the kind alone: one impl for both would need a trait that names the kind.)
impl From<Txid> for Key {
    ghost from_gives = { λ t k. key_num k ≡ txid (hash_num t.0) };

    fn from(t: Txid) -> Key {
        Key {
            kind: Kind::Txid,
            hash: t.0,
        }
    }
}

impl From<Wtxid> for Key {
    ghost from_gives = { λ w k. key_num k ≡ wtxid (hash_num w.0) };

    fn from(w: Wtxid) -> Key {
        Key {
            kind: Kind::Wtxid,
            hash: w.0,
        }
    }
}

// ---- Items, their type numbers and their keys

impl From<u32> for ItemKind {
    ghost from_gives = { λ t k. k ≡ item_kind_of t };

    fn from(t: u32) -> ItemKind {
        match t {
            MSG_TX => ItemKind::Transaction,
            MSG_WITNESS_TX => ItemKind::WitnessTransaction,
            MSG_WTX => ItemKind::WTx,
            _ => ItemKind::Other(t),
        }
    }
}

impl From<ItemKind> for u32 {
    ghost from_gives = { λ k t. t ≡ type_of k };

    fn from(k: ItemKind) -> u32 {
        match k {
            ItemKind::Transaction => MSG_TX,
            ItemKind::WitnessTransaction => MSG_WITNESS_TX,
            ItemKind::WTx => MSG_WTX,
            ItemKind::Other(t) => t,
        }
    }
}

// False of an Other that holds one of the three numbers: no item is of that kind.
pub fn is_plain(k: ItemKind) -> bool
    ensures { result ≡ is_plain k }
{
    !matches!(k, ItemKind::Other(MSG_TX | MSG_WITNESS_TX | MSG_WTX))
}

fn kind_of(k: ItemKind) -> Option<Kind>
    ensures { maybe_kind result ≡ kind_of k }
{
    match k {
        ItemKind::Transaction | ItemKind::WitnessTransaction => Some(Kind::Txid),
        ItemKind::WTx => Some(Kind::Wtxid),
        ItemKind::Other(_) => None,
    }
}

// The Rust's Identity::from_inventory.
pub fn key_of(item: Item) -> Option<Key>
    ensures { maybe_key_num result ≡ key_of (item_num item) }
{
    let kind = kind_of(item.kind)?;
    Some(Key {
        kind,
        hash: item.hash,
    })
}

// Fields of a line, each a part of its bytes, as values.
ghost use Rattle.std.specs.Prelude.{ℕ, ◌≡◌, ◌+◌, ◌^◌, ◌<◌, ◌≤◌, length, drop, MatchOption};
ghost use lib.Dec.{lit≤};
ghost use Rattle.regions.specs.Rows.{quad_number};
ghost use Rattle.ident.specs.Words.{key_num};
ghost use Rattle.machine.specs.Fields.{digit_of, numeral_of, number_of, type_of, hash_of, bool_of, kind_of, key_of, letter_kind, other_kind, other_of, item_of, same_text, before};
ghost use Rattle.machine.specs.Claim.{elem};
ghost use Rattle.machine.specs.Text.{hash_digits};
ghost use Rattle.lines.specs.Hexadecimal.{hex_of};
ghost use Rattle.lines.specs.Values.{value_in, with_digit, named_key, number_in, hash_in, bool_in, key_in, item_kind_in, item_in};

use crate::digits::value;

// A hash as plain words with the kind that it is named by: a key's, which is an ident::Kind, or an item's, an ident::ItemKind.
#[derive(Clone, Copy)]
pub struct Named<K> {
    pub kind: K,
    pub hash: regions::Quad,
}

// A key as the tracker takes it.
impl From<Named<ident::Kind>> for ident::Key {
    ghost from_gives = { λ n k. key_num k ≡ named_key n };

    fn from(n: Named<ident::Kind>) -> ident::Key {
        let Named { kind, hash } = n;
        let hash = ident::Hash::from(hash);
        ident::Key { kind, hash }
    }
}

// A key as rows have it.
// (A key of a line is no regions::Key: an item of the same two fields would have a struct of its own beside it.)
impl From<Named<ident::Kind>> for regions::Key {
    ghost from_gives = { λ n k. k ≡ record { kind = n.kind; hash = n.hash } };

    fn from(n: Named<ident::Kind>) -> regions::Key {
        let Named { kind, hash } = n;
        regions::Key { kind, hash }
    }
}

// ---- Numbers

// A decimal number that is read digit by digit, the highest first.
trait Numeral: Copy {
    ghost number: { Self → ℕ };

    ghost limit: { ℕ };

    fn zero() -> Self
        ensures { number result ≡ 0 };

    // The number with one digit more, if there is such a decimal digit, and the number stays below its limit.
    fn with_digit(self, digit: u64) -> Option<Self>
        ensures { value_in number result ≡ with_digit 10 limit (number self) digit };

    ghost limit_in: { 10 ≤ limit };
}

impl Numeral for u64 {
    ghost number = { λ n. n };

    ghost limit = { 2 ^ 64 };

    ghost limit_in = { lit≤ tt };

    fn zero() -> Self {
        0
    }

    fn with_digit(self, digit: u64) -> Option<Self> {
        if 10 <= digit {
            return None;
        }
        self.checked_mul(10)?.checked_add(digit)
    }
}

// The type of an item.
impl Numeral for u32 {
    ghost number = { λ n. n };

    ghost limit = { 2 ^ 32 };

    ghost limit_in = { lit≤ tt };

    fn zero() -> Self {
        0
    }

    fn with_digit(self, digit: u64) -> Option<Self> {
        let n = u64::from(self).with_digit(digit)?;
        u32::try_from(n).ok()
    }
}

// The digit of a byte that is a decimal one.
// (First by the byte, so that one comparison is left of `value`'s, which are for letters too.)
fn decimal(c: u8) -> Option<u64>
    ensures { MatchOption result (10 ≤ digit_of c) (λ d. (d ≡ digit_of c) × (d < 10)) }
{
    if b'9' < c {
        return None;
    }
    value(c)
}

// What the decimal digits of f write; no digit follows a leading zero.
fn digits_of<N: Numeral>(f: &[u8]) -> Option<N>
    ensures { value_in N.number result ≡ numeral_of 10 N.limit f.now }
{
    let (&first, rest) = f.split_first()?;
    let first = decimal(first)?;
    let mut n = N::zero().with_digit(first)?;
    for &c in rest {
        if first == 0 {
            return None;
        }
        n = n.with_digit(decimal(c)?)?;
    }
    Some(n)
}

pub fn number(f: &[u8]) -> Option<u64>
    ensures { number_in result ≡ number_of f.now }
{
    digits_of(f)
}

// ---- Hashes

// Digits of a word.
const WORD_DIGITS: usize = 16;

// Digits of a hash.
const HASH_DIGITS: usize = 4 * WORD_DIGITS;

// The word that hexadecimal digits write, leading zeros and all.
fn word(f: &[u8]) -> Option<u64>
    requires { length f.now ≤ 16 }
    ensures { number_in result ≡ hex_of f.now }
{
    let mut n = 0;
    for &c in f {
        let digit = value(c)?;
        n = n * 16 + digit;
    }
    Some(n)
}

// The words that digits of a hash write, the highest first.
fn words(f: &[u8]) -> Option<regions::Quad>
    requires { length f.now ≤ hash_digits }
    ensures { hash_in result ≡ hex_of f.now }
{
    let c = f.len().saturating_sub(WORD_DIGITS);
    let b = c.saturating_sub(WORD_DIGITS);
    let a = b.saturating_sub(WORD_DIGITS);
    let w3 = word(&f[..a])?;
    let w2 = word(&f[a..b])?;
    let w1 = word(&f[b..c])?;
    let w0 = word(&f[c..])?;
    Some(regions::Quad { w0, w1, w2, w3 })
}

// (Not digit by digit as a number is read: each would move four words on.)
pub fn hash(f: &[u8]) -> Option<regions::Quad>
    ensures { hash_in result ≡ hash_of f.now }
{
    let (&first, rest) = f.split_first()?;
    // (`&`: both are known here, so that there is one way through.)
    if (first == b'0') & !rest.is_empty() {
        return None;
    }
    if HASH_DIGITS < f.len() {
        return None;
    }
    words(f)
}

// ---- Bools, keys, items

#[tactic(auto, unfolding(machine::specs::Fields::bool_of))]
pub fn boolean(f: &[u8]) -> Option<bool>
    ensures { bool_in result ≡ bool_of f.now }
{
    let &[digit] = f else {
        return None;
    };
    match digit {
        b'0' => Some(false),
        b'1' => Some(true),
        _ => None,
    }
}

// A kind's letter is of the texts, here and below: no TryFrom of ident, whose kinds have numbers.
fn kind(c: u8) -> Option<ident::Kind>
    ensures { value_in (λ k. k) result ≡ kind_of c }
{
    match c {
        b't' => Some(ident::Kind::Txid),
        b'w' => Some(ident::Kind::Wtxid),
        _ => None,
    }
}

#[tactic(auto, unfolding(machine::specs::Fields::key_of))]
pub fn key(f: &[u8]) -> Option<Named<ident::Kind>>
    ensures { key_in result ≡ key_of f.now }
{
    let (&letter, digits) = f.split_first()?;
    let kind = kind(letter)?;
    let hash = hash(digits)?;
    Some(Named { kind, hash })
}

fn letter_kind(c: u8) -> Option<ident::ItemKind>
    ensures { item_kind_in result ≡ letter_kind c }
{
    match c {
        b't' => Some(ident::ItemKind::Transaction),
        b'v' => Some(ident::ItemKind::WitnessTransaction),
        b'w' => Some(ident::ItemKind::WTx),
        _ => None,
    }
}

// The kind of an other item, of which f is the type.
fn other_kind(f: &[u8]) -> Option<ident::ItemKind>
    ensures { item_kind_in result ≡ other_kind (type_of f.now) }
{
    let k = ident::ItemKind::Other(digits_of(f)?);
    if !ident::is_plain(k) {
        return None;
    }
    Some(k)
}

// An other item, of which f is what stands behind the letter.
// (By `seek`, whose clause is of what stands before the colon, as the definition's: `position` would tell an index.)
#[tactic(auto, unfolding(machine::specs::Fields::behind))]
fn other_item(f: &[u8]) -> Option<Named<ident::ItemKind>>
    ensures { item_in result ≡ other_of f.now }
{
    let at = seek(f, 0, b':');
    if at == f.len() {
        return None;
    }
    let kind = other_kind(&f[..at])?;
    let hash = hash(&f[at + 1..])?;
    Some(Named { kind, hash })
}

#[tactic(auto, unfolding(machine::specs::Fields::item_of))]
pub fn item(f: &[u8]) -> Option<Named<ident::ItemKind>>
    ensures { item_in result ≡ item_of f.now }
{
    let (&letter, digits) = f.split_first()?;
    if letter == b'o' {
        return other_item(digits);
    }
    let kind = letter_kind(letter)?;
    let hash = hash(digits)?;
    Some(Named { kind, hash })
}

// ---- Fields

// Whether x stands among bytes.
// (No `contains`: each byte is compared, whatever the others are, so that many are compared at a time.)
fn stands(s: &[u8], x: u8) -> bool
    ensures { result ≡ elem x s.now }
{
    let mut found = false;
    for &c in s {
        found = found | (c == x);
    }
    found
}

// The first index at or after from where s has x, or its length: byte by byte, for an x that is near.
pub fn seek(s: &[u8], from: usize, x: u8) -> usize
    requires { from ≤ length s.now }
    ensures { result ≡ from + length (before x (drop from s.now)) }
{
    match s[from..].iter().position(|&c| c == x) {
        Some(i) => from + i,
        None => s.len(),
    }
}

// Bytes that are passed at a time.
const BLOCK: usize = 32;

// The first index at or after from where s has x, or its length.
pub fn find(s: &[u8], from: usize, x: u8) -> usize
    requires { from ≤ length s.now }
    ensures { result ≡ from + length (before x (drop from s.now)) }
{
    let mut at = from;
    while BLOCK <= s.len() - at {
        if stands(&s[at..at + BLOCK], x) {
            return seek(s, at, x);
        }
        at += BLOCK;
    }
    seek(s, at, x)
}

// Where the field that starts at from ends: at the next comma, or with the line.
pub fn field_end(line: &[u8], from: usize) -> usize
    requires { from ≤ length line.now }
    ensures { result ≡ from + length (before 44 (drop from line.now)) }
{
    find(line, from, b',')
}

// (The library's test, which by this clause is that of the texts.)
pub fn same(s: &[u8], t: &[u8]) -> bool
    ensures { result ≡ same_text s.now t.now }
{
    s == t
}

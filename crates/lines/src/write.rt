// Values as text, written into lent bytes from an index on. Each function answers the index behind what it wrote.
//
// The index is no count of the bytes: it is where the text begins. (A cursor that holds the slice and the index is no plainer: beside what was written, each contract would
// have to say that the cursor still holds the same slice, or its maker would not know the bytes.)
ghost use Rattle.std.specs.Prelude.{◌≡◌, ◌+◌, ◌/◌, ◌≤◌, ltb, length};
ghost use Rattle.regions.specs.Rows.{quad_number};
ghost use Rattle.machine.specs.Text.{decimal_digits, decimal, hash_digits, hexadecimal, kind_letter, key_text};
ghost use Rattle.lines.specs.Text.{Wrote};

use crate::digits::text;

pub fn put_decimal(s: &mut [u8], a: usize, n: u64) -> usize
    requires { a + decimal_digits ≤ length s.old }
    ensures { Wrote s.old s.new a (decimal n) result }
{
    if n < 10 {
        s[a] = text(n);
        return a + 1;
    }
    let e = put_decimal(s, a, n / 10);
    s[e] = text(n % 10);
    e + 1
}

// The weight of a word's highest hexadecimal digit.
const HIGH_DIGIT: u64 = 0x1000_0000_0000_0000;

// Whether q is a number of one hexadecimal digit.
fn is_digit(q: regions::Quad) -> bool
    ensures { result ≡ ltb (quad_number q) 16 }
{
    let sixteen = regions::Quad {
        w0: 16,
        ..regions::Quad::ZERO
    };
    regions::quad_less(q, sixteen)
}

// q without its last hexadecimal digit.
fn without_digit(q: regions::Quad) -> regions::Quad
    ensures { quad_number result ≡ quad_number q / 16 }
{
    regions::Quad {
        w0: q.w0 / 16 + q.w1 % 16 * HIGH_DIGIT,
        w1: q.w1 / 16 + q.w2 % 16 * HIGH_DIGIT,
        w2: q.w2 / 16 + q.w3 % 16 * HIGH_DIGIT,
        w3: q.w3 / 16,
    }
}

// (No one function for numbers and hashes: a trait of both would have last digit, rest, room and their laws, longer than the second.)
pub fn put_hash(s: &mut [u8], a: usize, q: regions::Quad) -> usize
    requires { a + hash_digits ≤ length s.old }
    ensures { Wrote s.old s.new a (hexadecimal (quad_number q)) result }
{
    if is_digit(q) {
        s[a] = text(q.w0);
        return a + 1;
    }
    let e = put_hash(s, a, without_digit(q));
    s[e] = text(q.w0 % 16);
    e + 1
}

// The bytes of t.
pub fn put_bytes(s: &mut [u8], a: usize, t: &[u8]) -> usize
    requires { a + length t.now ≤ length s.old }
    ensures { Wrote s.old s.new a t.now result }
{
    let end = a + t.len();
    s[a..end].copy_from_slice(t);
    end
}

// The letter is of the texts: a kind's own conversion gives its number.
pub fn kind_letter(k: ident::Kind) -> u8
    ensures { result ≡ kind_letter k }
{
    match k {
        ident::Kind::Txid => b't',
        ident::Kind::Wtxid => b'w',
    }
}

// (Kind and hash apart: of its two callers one has a key, the other an owner's kind beside a hash.)
pub fn put_key(s: &mut [u8], a: usize, k: ident::Kind, q: regions::Quad) -> usize
    requires { a + (1 + hash_digits) ≤ length s.old }
    ensures { Wrote s.old s.new a (key_text (record { kind = k; hash = quad_number q })) result }
{
    s[a] = kind_letter(k);
    put_hash(s, a + 1, q)
}

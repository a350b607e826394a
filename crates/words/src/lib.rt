// A lent byte slice as 64-bit words, the least byte first (document 01, "What a state holds", module 2: one ordered lent store).
//
// Every function takes a slice whose byte 0 is the first byte of word 0, and its contract is an equation between lists of words
// that holds of any bytes. A `requires` says only that the words in question lie within the slice.
#![tactic(auto)]

ghost use Rattle.std.specs.Prelude.{◌≡◌, ◌+◌, ◌-◌, ◌*◌, ◌≤◌, ◌<◌, length, get_or, replicate};
ghost use Rattle.std.proofs.Math.Seq.{slice};
ghost use Rattle.words.specs.Words.{words, up, down, splice, Put, Decides};

// The i-th word of s. (Compiles to one 8-byte load. A `first_chunk` would give an Option, whose None is no case here.)
pub fn get(s: &[u8], i: usize) -> u64
    requires { 8 * i + 8 ≤ length s.now }
    ensures { result ≡ get_or (words s.now) i 0 }
{
    let a = i * 8;
    u64::from_le_bytes([
        s[a],
        s[a + 1],
        s[a + 2],
        s[a + 3],
        s[a + 4],
        s[a + 5],
        s[a + 6],
        s[a + 7],
    ])
}

// Stores v as the i-th word of s. (Byte by byte it compiles to one 8-byte store. Tried with `copy_from_slice` of the eight: a test whether they overlap s stands before each.)
pub fn put(s: &mut [u8], i: usize, v: u64)
    requires { 8 * i + 8 ≤ length s.old }
    ensures { Put s.old s.new i v }
{
    let a = i * 8;
    let [b0, b1, b2, b3, b4, b5, b6, b7] = v.to_le_bytes();
    s[a] = b0;
    s[a + 1] = b1;
    s[a + 2] = b2;
    s[a + 3] = b3;
    s[a + 4] = b4;
    s[a + 5] = b5;
    s[a + 6] = b6;
    s[a + 7] = b7;
}

// Moves the first m words up by d. (With a constant d it is compiled to a memmove.)
pub fn shift_up(s: &mut [u8], m: usize, d: usize)
    requires { (0 < d) × (8 * (m + d) ≤ length s.old) }
    ensures { words s.new ≡ up d (words s.old) 0 m }
{
    s.copy_within(0..m * 8, d * 8);
}

// Moves the words d .. m + d down by d.
pub fn shift_down(s: &mut [u8], m: usize, d: usize)
    requires { 8 * (m + d) ≤ length s.old }
    ensures { words s.new ≡ down d (words s.old) 0 m }
{
    s.copy_within(d * 8..(m + d) * 8, 0);
}

// Stores d zeros from the word a on.
pub fn clear(s: &mut [u8], a: usize, d: usize)
    requires { 8 * (a + d) ≤ length s.old }
    ensures { words s.new ≡ splice (words s.old) a (replicate d 0) }
{
    s[a * 8..(a + d) * 8].fill(0);
}

// Whether the words a .. b are all zero. (No early exit, so that the loop is compiled to vector instructions.)
pub fn is_zero(s: &[u8], a: usize, b: usize) -> bool
    requires { (a ≤ b) × (8 * b ≤ length s.now) }
    ensures { Decides result (slice a b (words s.now) ≡ replicate (b - a) 0) }
{
    let mut seen: u64 = 0;
    for k in a..b {
        seen = seen | get(s, k);
    }
    seen == 0
}

// Records of any kind: what a kind of record is, and what is done to those of a region, whatever their kind.
//
// The words of a kind are a constant of its trait, so that a move by a record is compiled for each kind with a constant distance.
ghost use Rattle.std.specs.Prelude.{◌≡◌, ℕ, ◌+◌, ◌*◌, ◌≤◌, ◌<◌, List, length, take, drop};
ghost use Rattle.words.specs.Words.{words, splice, up, down};
ghost use Rattle.regions.specs.Regions.{Inserted, Removed, Replaced, Truncated, Copied, Found, RecordLaws, WholeLaws};

// A kind of record: how many words it has, what it holds, and the words of that.
pub trait Record {
    const WORDS: usize;

    ghost WORDS: { ℕ };

    ghost Value: { Type 0 };

    ghost to_words: { Value → List ℕ };

    ghost laws: { RecordLaws WORDS to_words };
}

// A record that is read and written whole.
pub trait WholeRecord: Record + Copy {
    ghost as_words: { Self → List ℕ };

    ghost from_words: { List ℕ → Self };

    // The record whose first word is the word a of s.
    fn read_at(s: &[u8], a: usize) -> Self
        requires { 8 * (a + Self.WORDS) ≤ length s.now }
        ensures { result ≡ from_words (drop a (words s.now)) };

    // Stores the record from the word a on.
    fn write_at(self, s: &mut [u8], a: usize)
        requires { 8 * (a + Self.WORDS) ≤ length s.old }
        ensures { words s.new ≡ splice (words s.old) a (as_words self) };

    ghost laws: { WholeLaws Self.Record.WORDS as_words from_words };
}

// The i-th record.
pub fn read<R: WholeRecord>(s: &[u8], i: usize) -> R
    requires { 8 * (R.WORDS * (i + 1)) ≤ length s.now }
    ensures { Found R.WORDS R.as_words (words s.now) R.from_words i result }
{
    R::read_at(s, i * R::WORDS)
}

// Stores r as the i-th record.
pub fn write<R: WholeRecord>(s: &mut [u8], i: usize, r: R)
    requires { 8 * (R.WORDS * (i + 1)) ≤ length s.old }
    ensures { Replaced R.WORDS R.as_words (words s.old) (words s.new) i r }
{
    r.write_at(s, i * R::WORDS);
}

// Moves the first m words of a part up by a record. (By itself, with a constant distance from word 0, it is compiled to a memmove.)
fn up_by<R: Record>(s: &mut [u8], m: usize)
    requires { 8 * (m + R.WORDS) ≤ length s.old }
    ensures { words s.new ≡ up R.WORDS (words s.old) 0 m }
{
    words::shift_up(s, m, R::WORDS);
}

// Moves m words of a part, from the second record on, down by a record.
fn down_by<R: Record>(s: &mut [u8], m: usize)
    requires { 8 * (m + R.WORDS) ≤ length s.old }
    ensures { words s.new ≡ down R.WORDS (words s.old) 0 m }
{
    words::shift_down(s, m, R::WORDS);
}

// Puts r in as the i-th of n records.
pub fn insert<R: WholeRecord>(s: &mut [u8], n: usize, i: usize, r: R)
    requires { (i ≤ n) × (8 * (R.WORDS * (n + 1)) ≤ length s.old) }
    ensures { Inserted R.WORDS R.as_words (words s.old) (words s.new) n i r }
{
    let size = R::WORDS;
    let gap = i * size;
    let end = n * size;
    up_by::<R>(&mut s[gap * 8..(end + size) * 8], end - gap);
    write(s, i, r);
}

// Takes the i-th of n records out.
pub fn remove<R: Record>(s: &mut [u8], n: usize, i: usize)
    requires { (i < n) × (8 * (R.WORDS * n) ≤ length s.old) }
    ensures { Removed R.WORDS R.to_words (words s.old) (words s.new) n i }
{
    let size = R::WORDS;
    let gap = i * size;
    let end = n * size - size;
    down_by::<R>(&mut s[gap * 8..(end + size) * 8], end - gap);
    words::clear(s, end, size);
}

// Clears the records from the m-th of n on.
pub fn truncate<R: Record>(s: &mut [u8], n: usize, m: usize)
    requires { (m ≤ n) × (8 * (R.WORDS * n) ≤ length s.old) }
    ensures { Truncated R.WORDS R.to_words (words s.old) (words s.new) n m }
{
    let size = R::WORDS;
    words::clear(s, m * size, (n - m) * size);
}

// Copies the record at `from` over the record at `to`, which is not behind it.
pub fn copy<R: Record>(s: &mut [u8], to: usize, from: usize)
    requires { (to ≤ from) × (8 * (R.WORDS * (from + 1)) ≤ length s.old) }
    ensures { Copied R.WORDS R.to_words (words s.old) (words s.new) to from }
{
    let size = R::WORDS;
    copy_down(s, to * size, from * size, size);
}

// ---- words of any records

// Moves the words a .. b up by d.
pub fn move_up(s: &mut [u8], a: usize, b: usize, d: usize)
    requires { (a ≤ b) × (0 < d) × (8 * (b + d) ≤ length s.old) }
    ensures { words s.new ≡ up d (words s.old) a b }
{
    let x = a * 8;
    let y = (b + d) * 8;
    words::shift_up(&mut s[x..y], b - a, d);
}

// Copies the d words at b down to a.
pub fn copy_down(s: &mut [u8], a: usize, b: usize, d: usize)
    requires { (a ≤ b) × (8 * (b + d) ≤ length s.old) }
    ensures { words s.new ≡ splice (words s.old) a (take d (drop b (words s.old))) }
{
    let by = b - a;
    let e = a + d;
    let x = a * 8;
    let y = (e + by) * 8;
    words::shift_down(&mut s[x..y], e - a, by);
}

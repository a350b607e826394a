// Records that do not pass a test taken out in one pass: one that stays moves up behind those that stay before it.
ghost use Rattle.std.specs.Prelude.{◌≡◌, ◌*◌, ◌≤◌, Bool, length};
ghost use Rattle.words.specs.Words.{words};
ghost use Rattle.regions.specs.Staying.{Sifted, Retained};

use crate::Record;

// Moves those of n records of whose bytes `stays` is true to the front, in their order; answers how many they are. Behind them stand records that were there before.
pub fn sift<R: Record, F: Fn(&[u8]) -> bool>(s: &mut [u8], n: usize, stays: F) -> usize
    requires room { 8 * (R.WORDS * n) ≤ length s.old }
    requires can { (u : _) → length u.now ≡ 8 * R.WORDS → F.pre stays u }
    ensures { Sifted R.WORDS R.to_words (λ q. (x : R.Value) (u : _) (b : Bool) → words u.now ≡ R.to_words x → F.post stays u b → b ≡ q x) (words s.old) (words s.new) n result }
{
    let size = R::WORDS;
    let mut m = 0;
    for i in 0..n {
        let at = i * size;
        if stays(&s[at * 8..(at + size) * 8]) {
            if m < i {
                crate::copy::<R>(s, m, i);
            }
            m += 1;
        }
    }
    m
}

// Leaves those of n records of whose bytes `stays` is true, in their order, and zeros behind them; answers how many they are.
pub fn retain<R: Record, F: Fn(&[u8]) -> bool>(s: &mut [u8], n: usize, stays: F) -> usize
    requires room { 8 * (R.WORDS * n) ≤ length s.old }
    requires can { (u : _) → length u.now ≡ 8 * R.WORDS → F.pre stays u }
    ensures { Retained R.WORDS R.to_words (λ q. (x : R.Value) (u : _) (b : Bool) → words u.now ≡ R.to_words x → F.post stays u b → b ≡ q x) (words s.old) (words s.new) n result }
{
    let m = sift::<R, F>(s, n, stays);
    crate::truncate::<R>(s, n, m);
    m
}

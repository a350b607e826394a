// Searches that begin at a guess: what is guessed is tested before it is taken.
ghost use Rattle.std.specs.Prelude.{◌≡◌, ℕ, ◌+◌, ◌*◌, ◌≤◌, ◌<◌, length, take, drop, ltb};
ghost use Rattle.words.specs.Words.{words, recs};
ghost use Rattle.regions.specs.Order.{Sought, IsLowerBound};
ghost use Rattle.regions.specs.Rows.{row_size, row_key, start_number};

use crate::{Key, lower_bound};
use std::ops::Bound;

// `lower_bound`, which is guessed to be `guess`: taken if the index before it falls short and it does not.
pub fn lower_bound_near<F: Fn(usize) -> bool>(n: usize, guess: usize, falls_short: F) -> usize
    requires { (i : ℕ) → i < n → F.pre falls_short i }
    ensures { IsLowerBound (F.post falls_short) n result }
{
    if guess == 0 || n < guess || !falls_short(guess - 1) {
        return lower_bound(n, falls_short);
    }
    if guess == n {
        return guess;
    }
    if falls_short(guess) {
        return lower_bound(n, falls_short);
    }
    guess
}

// `seek_row`, which is guessed to be the row `guess`. (The closure stands here and there: a function cannot hand one out.)
pub fn seek_row_near(s: &[u8], n: usize, start: Bound<Key>, guess: usize) -> usize
    requires { 8 * (row_size * n) ≤ length s.now }
    ensures { Sought (recs row_size row_key n (words s.now)) n (start_number start) result }
{
    lower_bound_near(
        n,
        guess,
        |i| -> bool
            requires { 8 * (row_size * (i + 1)) ≤ length s.now }
            ensures { result ≡ ltb (row_key (take row_size (drop (row_size * i) (words s.entry.now)))) (start_number start) }
        { crate::falls_short(crate::key_at(s, i), start) },
    )
}

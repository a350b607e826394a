// Searches that begin at a guess: a walk over the rows in their order finds each hash near the last one. The guess is tested, not trusted.
// n rows stand in a region, whose slice goes on to its capacity.
ghost use Rattle.std.specs.Prelude.{◌+◌, ◌*◌, ◌≤◌, ◌<◌, length};
ghost use Rattle.ident.specs.Words.{hash_num};
ghost use Rattle.words.specs.Words.{words, recs};
ghost use Rattle.regions.specs.Order.{Sought};
ghost use Rattle.regions.specs.Rows.{row_size, row_key, start_number};
ghost use Rattle.store.specs.Shown.{rows_in, row_numbers, Shown, Seek, Kept};
ghost use Rattle.choosing.specs.Choosing.{WindowAs};
ghost use Rattle.selecting.specs.Near.{Behind};

use std::ops::Bound;
use store::layout;

// The guess, if the row before it falls short; otherwise the first row.
#[inline(always)]
fn begin_at(s: &[u8], n: usize, start: Bound<regions::Key>, guess: usize) -> usize
    requires { 8 * (row_size * n) ≤ length s.now }
    ensures { Behind (recs row_size row_key n (words s.now)) n (start_number start) result }
{
    if guess == 0 || n < guess {
        return 0;
    }
    if regions::falls_short(regions::key_at(s, guess - 1), start) {
        guess
    } else {
        0
    }
}

// How far ahead of `wide` rows the next is tried: `step`, or half of them.
fn ahead(wide: usize, step: usize) -> usize
    requires { 0 < wide }
    ensures { result < wide }
{
    if step < wide { step } else { wide / 2 }
}

// The first of n rows whose key does not stand before `start`, or n. By hand, since it begins at a guess: from there on the steps
// double, then what is left is halved, so that a walk pays for the rows between two hashes; `regions::lower_bound` would halve all of them, and so would
// `regions::near` where the guess is not what is sought.
#[inline(always)]
fn seek_in(s: &[u8], n: usize, start: Bound<regions::Key>, guess: usize) -> usize
    requires { 8 * (row_size * n) ≤ length s.now }
    ensures { Sought (recs row_size row_key n (words s.now)) n (start_number start) result }
{
    let mut lo = begin_at(s, n, start, guess);
    let mut hi = n;
    let mut step = 0;
    while lo < hi {
        let d = ahead(hi - lo, step);
        let mid = lo + d;
        if regions::falls_short(regions::key_at(s, mid), start) {
            lo = mid + 1;
            step = 2 * d + 1;
        } else {
            hi = mid;
        }
    }
    lo
}

// What store::rows::seek_row answers. (Inlined, and with it what it calls: each of its two calls gives a bound of one form, which would else be asked for at every row
// that is compared.)
#[inline(always)]
fn seek_near(s: &[u8], start: Bound<regions::Key>, guess: usize) -> usize
    requires { Shown s.now }
    ensures { Seek s.now (λ f. row_numbers f.rows) (rows_in s.now) (start_number start) result }
{
    let n = store::head::rows(s);
    seek_in(&s[layout::rows_part(s)], n, start, guess)
}

// Where the rows of the hash h stand under one kind.
pub fn window_near(s: &[u8], kind: ident::Kind, h: ident::Hash, guess: usize) -> requests::Window
    requires { Kept s.now }
    ensures { WindowAs s.now kind (hash_num h) result }
{
    let k = regions::Key::from(ident::Key { kind, hash: h });
    let from = seek_near(s, Bound::Included(k), guess);
    let to = seek_near(s, Bound::Excluded(k), from);
    requests::Window { from, to }
}

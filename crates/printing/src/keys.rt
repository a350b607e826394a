// Keys of an answer buffer as text, parted by commas; the reply of a call that lists keys.
ghost use Rattle.std.specs.Prelude.{◌≡◌, ◌+◌, ◌*◌, ◌≤◌, ◌∷◌, length, take, drop};
ghost use Rattle.machine.specs.Call.{key_bytes};
ghost use Rattle.lent_lists.specs.Lists.{key_in, keys_in};
ghost use Rattle.machine.specs.Text.{decimal, key_text, joined};
ghost use Rattle.lines.specs.Text.{Wrote, key_room, with_commas};
ghost use Rattle.printing.specs.Replies.{listed, key_texts};
ghost use Rattle.printing.specs.Given.{answer_room, most_keys, next_room, listing_with, KeysFit, Printed, ListingPrinted};

use crate::numbers::refusal;
use lines::write::put_bytes;

// The i-th key.
fn put_key(out: &mut [u8], at: usize, answer: &[u8], i: usize) -> usize
    requires { (key_bytes * i + key_bytes ≤ length answer.now) × (at + key_room ≤ length out.old) }
    ensures { Wrote out.old out.new at (key_text (key_in (take key_bytes (drop (key_bytes * i) answer.now)))) result }
{
    crate::entries::put_key(out, at, lent_lists::key_at(answer, i))
}

// n keys from the first on, each behind a comma. (As `entries::put_behind`.)
fn put_behind(out: &mut [u8], at: usize, answer: &[u8], first: usize, n: usize) -> usize
    requires { (at + next_room * n ≤ length out.old) × (key_bytes * (first + n) ≤ length answer.now) }
    ensures { (result ≤ at + next_room * n) × Wrote out.old out.new at (with_commas (key_texts (keys_in n (drop (key_bytes * first) answer.now)))) result }
{
    let mut to = at;
    for i in 0..n {
        let from = put_bytes(out, to, b",");
        to = put_key(out, from, answer, first + i);
    }
    to
}

// The first n keys; `-` for none.
fn put_keys(out: &mut [u8], answer: &[u8], n: usize) -> usize
    requires { (answer_room ≤ length out.old) × (n ≤ most_keys) × (key_bytes * n ≤ length answer.now) }
    ensures { Printed out.old out.new (listed (key_texts (keys_in n answer.now))) result }
{
    if n == 0 {
        return put_bytes(out, 0, b"-");
    }
    let at = put_key(out, 0, answer, 0);
    put_behind(out, at, answer, 1, n - 1)
}

// A refusal, or the keys of an answer.
pub fn listing<E>(out: &mut [u8], answer: &[u8], a: Result<u64, E>) -> usize
where
    u64: From<E>,
    requires { (answer_room ≤ length out.old) × KeysFit (listing_with 0 a answer.now) answer.now }
    ensures { ListingPrinted ⟦<u64 as From<E>>⟧.from_gives a answer.now out.old out.new result }
{
    match a {
        Ok(n) => put_keys(out, answer, n as usize),
        Err(cause) => refusal(out, u64::from(cause)),
    }
}

// The number of keys that a connection had, and behind it the first n keys of an answer: those, and then the parents'.
pub fn put_departure(out: &mut [u8], answer: &[u8], own: u64, n: usize) -> usize
    requires { (answer_room ≤ length out.old) × (n ≤ most_keys) × (key_bytes * n ≤ length answer.now) }
    ensures { Printed out.old out.new (joined (decimal own ∷ key_texts (keys_in n answer.now))) result }
{
    let at = lines::write::put_decimal(out, 0, own);
    put_behind(out, at, answer, 0, n)
}

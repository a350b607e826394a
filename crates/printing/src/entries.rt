// Entries of an answer buffer as text, parted by commas.
ghost use Rattle.std.specs.Prelude.{◌+◌, ◌*◌, ◌≤◌, ◌∷◌, length};
ghost use Rattle.ident.specs.Words.{key_num, item_num};
ghost use Rattle.machine.specs.Call.{entry_bytes};
ghost use Rattle.choosing.specs.Choosing.{option_of};
ghost use Rattle.requests.specs.Changes.{candidate_of};
ghost use Rattle.claiming.specs.Claiming.{entry_from, entries_from};
ghost use Rattle.machine.specs.Text.{decimal, bool_text, key_text, item_kind_text, item_text, joined};
ghost use Rattle.lines.specs.Text.{Wrote, key_room, number_room, with_commas};
ghost use Rattle.printing.specs.Replies.{listed, entry_texts, time_text, selection_text};
ghost use Rattle.printing.specs.Given.{answer_room, most_entries, kind_room, item_room, candidate_room, entry_room, candidate_texts, entry_text, Printed};

use lines::write::{put_bytes, put_decimal};

pub fn put_key(out: &mut [u8], at: usize, k: ident::Key) -> usize
    requires { at + key_room ≤ length out.old }
    ensures { Wrote out.old out.new at (key_text (key_num k)) result }
{
    lines::write::put_key(out, at, k.kind, regions::Quad::from(k.hash))
}

fn put_kind(out: &mut [u8], at: usize, k: ident::ItemKind) -> usize
    requires { at + kind_room ≤ length out.old }
    ensures { Wrote out.old out.new at (item_kind_text k) result }
{
    match k {
        ident::ItemKind::Transaction => put_bytes(out, at, b"t"),
        ident::ItemKind::WitnessTransaction => put_bytes(out, at, b"v"),
        ident::ItemKind::WTx => put_bytes(out, at, b"w"),
        ident::ItemKind::Other(n) => {
            let from = put_bytes(out, at, b"o");
            let e = put_decimal(out, from, n as u64);
            put_bytes(out, e, b":")
        }
    }
}

fn put_item(out: &mut [u8], at: usize, item: ident::Item) -> usize
    requires { at + item_room ≤ length out.old }
    ensures { Wrote out.old out.new at (item_text (item_num item)) result }
{
    let e = put_kind(out, at, item.kind);
    lines::write::put_hash(out, e, regions::Quad::from(item.hash))
}

// Behind a comma.
pub fn put_number(out: &mut [u8], at: usize, n: u64) -> usize
    requires { at + number_room ≤ length out.old }
    ensures { Wrote out.old out.new at (44 ∷ decimal n) result }
{
    let from = put_bytes(out, at, b",");
    put_decimal(out, from, n)
}

// Two literals: a digit that is made of the bool would be proved by the same two cases.
fn put_bool(out: &mut [u8], at: usize, b: bool) -> usize
    requires { at + 2 ≤ length out.old }
    ensures { Wrote out.old out.new at (44 ∷ bool_text b) result }
{
    if b {
        return put_bytes(out, at, b",1");
    }
    put_bytes(out, at, b",0")
}

// What stands behind an entry's key, each field behind a comma.
fn put_candidate(out: &mut [u8], at: usize, c: requests::Candidate) -> usize
    requires { at + candidate_room ≤ length out.old }
    ensures { Wrote out.old out.new at (with_commas (candidate_texts (candidate_of c))) result }
{
    let e = put_number(out, at, c.connection);
    let from = put_bytes(out, e, b",");
    let e = put_item(out, from, c.item);
    let e = put_number(out, e, c.ready);
    let e = put_bool(out, e, c.preferred);
    put_number(out, e, c.priority)
}

// The i-th entry.
fn put_entry(out: &mut [u8], at: usize, answer: &[u8], i: usize) -> usize
    requires { (entry_bytes * i + entry_bytes ≤ length answer.now) × (at + (key_room + candidate_room) ≤ length out.old) }
    ensures { Wrote out.old out.new at (entry_text (entry_from answer.now i)) result }
{
    let a = claiming::entries::entry_in(answer, i);
    let e = put_key(out, at, a.key);
    put_candidate(out, e, a.candidate)
}

// n entries from the first on, each behind a comma. (As `keys::put_behind`: one function for both would take what puts the i-th as a closure, and a law of its text, in place of
// this loop.)
fn put_behind(out: &mut [u8], at: usize, answer: &[u8], first: usize, n: usize) -> usize
    requires { (entry_bytes * (first + n) ≤ length answer.now) × (at + entry_room * n ≤ length out.old) }
    ensures { (result ≤ at + entry_room * n) × Wrote out.old out.new at (with_commas (entry_texts (entries_from answer.now first n))) result }
{
    let mut to = at;
    for i in 0..n {
        let from = put_bytes(out, to, b",");
        to = put_entry(out, from, answer, first + i);
    }
    to
}

// n entries from the first on; `-` for none.
pub fn put_entries(out: &mut [u8], answer: &[u8], first: usize, n: usize) -> usize
    requires { (answer_room ≤ length out.old) × (n ≤ most_entries) × (entry_bytes * (first + n) ≤ length answer.now) }
    ensures { Printed out.old out.new (listed (entry_texts (entries_from answer.now first n))) result }
{
    if n == 0 {
        return put_bytes(out, 0, b"-");
    }
    let at = put_entry(out, 0, answer, first);
    put_behind(out, at, answer, first + 1, n - 1)
}

// A time behind a comma, or `none`.
fn put_time(out: &mut [u8], at: usize, time: Option<u64>) -> usize
    requires { at + number_room ≤ length out.old }
    ensures { Wrote out.old out.new at (44 ∷ time_text (option_of time)) result }
{
    match time {
        Some(t) => put_number(out, at, t),
        None => put_bytes(out, at, b",none"),
    }
}

// How many keys a plan considered, behind it the first n entries of its answer, and when to look again.
pub fn put_selection(
    out: &mut [u8],
    answer: &[u8],
    considered: u64,
    n: usize,
    next: Option<u64>,
) -> usize
    requires { (answer_room ≤ length out.old) × (n ≤ most_entries) × (entry_bytes * n ≤ length answer.now) }
    ensures { Printed out.old out.new (selection_text considered (entries_from answer.now 0 n) (option_of next)) result }
{
    let at = put_decimal(out, 0, considered);
    let to = put_behind(out, at, answer, 0, n);
    put_time(out, to, next)
}

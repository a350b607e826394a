// The first line: L, Q, next poll, known cursor, ready cursor.
ghost use Rattle.std.specs.Prelude.{◌+◌, ◌≤◌, [], ◌∷◌};
ghost use Rattle.ident.specs.Words.{maybe_key_num};
ghost use Rattle.machine.specs.State.{State, on_table};
ghost use Rattle.machine.specs.Sound.{Sound};
ghost use Rattle.machine.specs.Text.{decimal};
ghost use Rattle.machine.specs.Listing.{short, maybe_field, key_field, HeadLine};
ghost use Rattle.store.specs.Image.{Writes};
ghost use Rattle.store.specs.Shown.{Kept};
ghost use Rattle.cursors.specs.Numbers.{time_num};
ghost use Rattle.lines.specs.Text.{number_room, key_room};
ghost use Rattle.saving.specs.Laid.{Lays, farthest, head_room, line_text};

use crate::fields::{next_number, put_key, put_number, put_text};

// (`none` or what is there, here and in `next_cursor`: see `next_owner` in fields.rt.)
fn next_time(out: &mut [u8], at: usize, m: Option<u64>) -> usize
    requires { at + number_room ≤ farthest }
    ensures { (result ≤ at + number_room) × Lays out.old out.new at (44 ∷ maybe_field (λ n. decimal n) (time_num m)) result }
{
    match m {
        None => put_text(out, at, b",none"),
        Some(n) => next_number(out, at, n),
    }
}

fn next_cursor(out: &mut [u8], at: usize, c: Option<ident::Key>) -> usize
    requires { at + (1 + key_room) ≤ farthest }
    ensures { (result ≤ at + (1 + key_room)) × Lays out.old out.new at (44 ∷ maybe_field (key_field short) (maybe_key_num c)) result }
{
    let Some(k) = c else {
        return put_text(out, at, b",none");
    };
    let from = put_text(out, at, b",");
    put_key(out, from, k)
}

pub fn put_head(s: &[u8], out: &mut [u8]) -> usize
    requires { Kept s.now }
    ensures { (result ≤ head_room) × ((st : State) → Sound st → Writes s.now st → Lays out.old out.new 0 (line_text (HeadLine (on_table [] st))) result) }
{
    let l = store::head::limit(s);
    let q = store::head::places(s);
    let next = cursors::next_poll(s);
    let known = cursors::cursor_at(s, store::layout::KNOWN);
    let ready = cursors::cursor_at(s, store::layout::READY);
    let e = put_number(out, 0, l as u64);
    let e = next_number(out, e, q as u64);
    let e = next_time(out, e, next);
    let e = next_cursor(out, e, known);
    let e = next_cursor(out, e, ready);
    put_text(out, e, b"\n")
}

// Several rows taken out at once: one move of the rows behind them.
ghost use Rattle.std.specs.Prelude.{◌≡◌, ◌+◌, ◌*◌, ◌≤◌, length};
ghost use Rattle.words.specs.Words.{words, down};
ghost use Rattle.regions.specs.Regions.{RangeRemoved};
ghost use Rattle.regions.specs.Rows.{row_size, row_words};

use crate::ROW;

// Moves m words down by d rows. (A key has at most 8 rows; with a constant distance the move is compiled to a memmove. By none, as where no request is, every word would be
// stored where it stands.)
fn rows_down_by(s: &mut [u8], m: usize, d: usize)
    requires { 8 * (m + row_size * d) ≤ length s.old }
    ensures { words s.new ≡ down (row_size * d) (words s.old) 0 m }
{
    match d {
        0 => {}
        1 => words::shift_down(s, m, ROW),
        2 => words::shift_down(s, m, 2 * ROW),
        3 => words::shift_down(s, m, 3 * ROW),
        4 => words::shift_down(s, m, 4 * ROW),
        5 => words::shift_down(s, m, 5 * ROW),
        6 => words::shift_down(s, m, 6 * ROW),
        7 => words::shift_down(s, m, 7 * ROW),
        8 => words::shift_down(s, m, 8 * ROW),
        _ => words::shift_down(s, m, d * ROW),
    }
}

// Takes the rows from .. to of n rows out.
pub fn remove_rows(s: &mut [u8], n: usize, from: usize, to: usize)
    requires { (from ≤ to) × (to ≤ n) × (8 * (row_size * n) ≤ length s.old) }
    ensures { RangeRemoved row_size row_words (words s.old) (words s.new) n from to }
{
    let d = to - from;
    let by = d * ROW;
    let gap = from * ROW;
    let end = n * ROW - by;
    let x = gap * 8;
    let y = (end + by) * 8;
    rows_down_by(&mut s[x..y], end - gap, d);
    words::clear(s, end, by);
}

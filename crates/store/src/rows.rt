// The candidate rows: read, taken out, searched. (One by one they are replaced, put in and taken out as records of a part: `parts`.)
ghost use Rattle.std.specs.Prelude.{◌≡◌, ◌-◌, ◌≤◌, ◌<◌, get_or};
ghost use Rattle.regions.specs.declared.Row.{Row};
ghost use Rattle.regions.specs.Regions.{remove_range};
ghost use Rattle.regions.specs.Rows.{start_number};
ghost use Rattle.store.specs.Flat.{Flat};
ghost use Rattle.store.specs.Image.{Shows};
ghost use Rattle.store.specs.Shown.{rows_in, row_numbers, Shown, with_rows, Turns, Seek, FoundMet};

use crate::{head, layout, parts};
use std::ops::Bound;

// Rows from .. to. It is passed on by copy, as a Range of std is not.
#[derive(Clone, Copy)]
pub struct Window {
    pub from: usize,
    pub to: usize,
    ghost order: { from ≤ to },
}

impl Window {
    // How many rows.
    pub fn len(self) -> usize
        ensures { result ≡ self.to - self.from }
    {
        self.to - self.from
    }
}

// The i-th row: `parts::at` by a name of its own, since most crates read rows and nothing else of a part.
pub fn row_at(s: &[u8], i: usize) -> regions::Row
    requires { Shown s.now × (i < rows_in s.now) }
    ensures { (f : Flat) (d : Row) → Shows s.now f → result ≡ get_or f.rows i d }
{
    parts::at(s, i)
}

// Takes the rows of a window out.
pub fn drop_rows(s: &mut [u8], w: Window)
    requires { Shown s.old × (w.to ≤ rows_in s.old) }
    ensures { Turns s.old s.new (λ f. with_rows (remove_range w.from w.to f.rows) f) }
{
    let n = head::rows(s);
    let part = layout::rows_part(s);
    regions::ranges::remove_rows(&mut s[part], n, w.from, w.to);
    words::put(s, layout::ROWS, (n - w.len()) as u64);
}

// The first row whose key does not stand before `start`, or how many rows there are.
pub fn seek_row(s: &[u8], start: Bound<regions::Key>) -> usize
    requires { Shown s.now }
    ensures { Seek s.now (λ f. row_numbers f.rows) (rows_in s.now) (start_number start) result }
{
    let n = head::rows(s);
    regions::seek_row(&s[layout::rows_part(s)], n, start)
}

// The first of the rows of a window whose connection is c, if there is one.
pub fn find_row(s: &[u8], w: Window, c: u64) -> Option<usize>
    requires { Shown s.now × (w.to ≤ rows_in s.now) }
    ensures { FoundMet s.now w.from w.to c result }
{
    regions::find_conn_in(&s[layout::rows_part(s)], w.from, w.to, c)
}

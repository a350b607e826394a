// Some of a store's rows, one behind the other: those of one hash, or those from one of them on.
ghost use Rattle.std.specs.Prelude.{◌≡◌, ◌≤◌};

use regions::Row;
use regions::listed::Records;

// The rows from .. to.
#[derive(Clone, Copy)]
pub struct Part<'a> {
    pub rows: Records<'a, Row>,
    pub from: usize,
    pub to: usize,
    ghost order: { from ≤ to },
    ghost inside: { to ≤ rows.count },
}

impl<'a> Part<'a> {
    pub fn new(rows: Records<'a, Row>, from: usize, to: usize) -> Part<'a>
        requires { (from ≤ to) × (to ≤ rows.count) }
        ensures { (result.rows ≡ rows.entry) × (result.from ≡ from) × (result.to ≡ to) }
    {
        Part { rows, from, to }
    }
}

// The connections: an entry for each that has a row, searched. (They are read, replaced, put in and taken out as records of a part: `parts`.)
ghost use Rattle.std.specs.Prelude.{◌≤◌};
ghost use Rattle.store.specs.Shown.{conns_in, conn_names, Shown, Seek};

use crate::{head, layout};

// The first entry whose connection is at least c, or how many entries there are.
pub fn seek_conn(s: &[u8], c: u64) -> usize
    requires { Shown s.now }
    ensures { Seek s.now (λ f. conn_names f.conns) (conns_in s.now) c result }
{
    let n = head::conns(s);
    regions::seek_conn(&s[layout::conns_part(s)], n, c)
}

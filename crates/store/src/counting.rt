// The tally: a connection's entry follows its rows.
ghost use Rattle.std.specs.Prelude.{◌≡◌, ℕ, ◌≤◌, ◌<◌, Option, Some};
ghost use Rattle.regions.specs.declared.Conn.{Conn};
ghost use Rattle.machine.specs.Limits.{max_announcements};
ghost use Rattle.store.specs.Counting.{raise, adjusted, less_one, unbump, reowned, retally};
ghost use Rattle.store.specs.Shown.{limit_in, conns_in, Light, Shown, EntryOf, Tallies};

use crate::{conns, head, parts};

// Where the entry of the connection x stands, or would.
pub fn find(s: &[u8], x: u64) -> Result<usize, usize>
    requires { Shown s.now }
    ensures { EntryOf s.now x result }
{
    let i = conns::seek_conn(s, x);
    if i < head::conns(s) && parts::at::<regions::Conn>(s, i).conn == x {
        Ok(i)
    } else {
        Err(i)
    }
}

// d rows more of the connection x, none of which owns its request.
pub fn count_in(s: &mut [u8], x: u64, d: u64)
    requires { Shown s.old × (conns_in s.old < limit_in s.old) × (1 ≤ d) × (d ≤ max_announcements) }
    ensures { Tallies s.old s.new (raise x d) }
{
    match find(s, x) {
        Ok(i) => {
            let c: regions::Conn = parts::at(s, i);
            let e = regions::Conn {
                held: c.held + d,
                ..c
            };
            parts::set(s, i, e);
        }
        Err(i) => {
            let e = regions::Conn {
                conn: x,
                held: d,
                owned: 0,
            };
            parts::add(s, i, e);
        }
    }
}

// The entry of the connection x, if it has one, becomes what `change` makes of it, or goes.
pub fn adjust<F: FnOnce(regions::Conn) -> Option<regions::Conn>>(s: &mut [u8], x: u64, change: F)
    requires shown { Shown s.old }
    requires can { (c : Conn) → Light c → F.pre change c }
    ensures { (g : Conn → Option Conn) → ((c : Conn) (r : Option Conn) → F.post change c r → r ≡ g c) → Tallies s.old s.new (adjusted x g) }
{
    if let Ok(i) = find(s, x) {
        match change(parts::at(s, i)) {
            Some(c) => parts::set(s, i, c),
            None => parts::drop::<regions::Conn>(s, i),
        }
    }
}

// One row less of the connection x, whose bit of owning was o. (A number, here and below: the contract speaks of any o, where a `bool` would take 0 and 1 alone; p is what it becomes.)
pub fn count_out(s: &mut [u8], x: u64, o: u64)
    requires { Shown s.old }
    ensures { Tallies s.old s.new (unbump x o) }
{
    adjust(
        s,
        x,
        |c| -> Option<regions::Conn>
            ensures { result ≡ less_one o c }
        {
            if c.held == 1 {
                None
            } else {
                Some(regions::Conn {
                    held: c.held.saturating_sub(1),
                    owned: c.owned.saturating_sub(o),
                    ..c
                })
            }
        },
    );
}

// A row of the connection x, whose bit of owning goes from o to p.
pub fn recount(s: &mut [u8], x: u64, o: u64, p: u64)
    requires { Shown s.old × (p ≤ 1) }
    ensures { Tallies s.old s.new (retally x o p) }
{
    adjust(
        s,
        x,
        |c| -> Option<regions::Conn>
            requires { Light c × (p ≤ 1) }
            ensures { result ≡ Some (reowned o p c) }
        {
            Some(regions::Conn {
                owned: c.owned.saturating_sub(o) + p,
                ..c
            })
        },
    );
}

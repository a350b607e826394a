// What waits is settled: the owners that have failed go in one pass, and the parents that wait come in by one merge.
ghost use Rattle.std.specs.Prelude.{◌≡◌};
ghost use Rattle.words.specs.Words.{words};
ghost use Rattle.postponing.specs.Pending.{Pends, Departs, Arrives, Settles};

use crate::silent;
use gathering::rows::Waiting;
use regions::listed::Records;

// The c owners that have failed go.
fn depart(s: &mut [u8], new: &Waiting, c: usize)
    requires { Pends s.old (words new.now.bytes) new.now.count c }
    ensures { Departs s.old s.new c }
{
    if c > 0 {
        silent::drop_due(s, 0);
    }
}

// The parents that wait come in, where nobody is to go.
fn arrive(s: &mut [u8], new: &mut Waiting)
    requires { Pends s.old (words new.old.bytes) new.old.count 0 }
    ensures { Arrives s.old s.new (words new.old.bytes) (words new.new.bytes) new.old.count × (new.new.count ≡ 0) }
{
    if new.count == 0 {
        return;
    }
    let rows = Records::new(&new.bytes, new.count);
    gathering::coming::come_in_all(s, rows);
    parenting::joining::mark_rows(s, rows);
    gathering::region::clear(&mut new.bytes);
    new.count = 0;
}

// The c owners that have failed go, and the parents that wait come in.
pub fn settle(s: &mut [u8], new: &mut Waiting, c: usize)
    requires { Pends s.old (words new.old.bytes) new.old.count c }
    ensures { Settles s.old s.new (words new.old.bytes) (words new.new.bytes) new.old.count c × (new.new.count ≡ 0) }
{
    depart(s, new, c);
    arrive(s, new);
}

// Parents that wait beside the store, to come in together: rows move once for all of them.
ghost use Rattle.std.specs.Prelude.{◌≡◌, ◌+◌, ◌≤◌, true, false};
ghost use Rattle.ident.specs.Words.{hash_num};
ghost use Rattle.words.specs.Words.{words};
ghost use Rattle.machine.specs.Table.{one};
ghost use Rattle.store.specs.Shown.{Kept};
ghost use Rattle.parenting.specs.Waiting.{Markable, RowsMarked, Waits, LetIn, WaitsWith, Adoptable, AdoptsBeside, NextIn};

use crate::parent::Parent;
use gathering::beside::Fare;
use gathering::rows::Waiting;
use regions::Row;
use regions::listed::Records;

// With fewer parents a pass over the rows costs more than it spares.
const FEW: usize = 6;

// The requests of some rows are marked.
pub fn mark_rows(s: &mut [u8], rows: Records<Row>)
    requires { Markable s.old (words rows.bytes.now) rows.count }
    ensures { RowsMarked s.old s.new (words rows.entry.bytes.now) rows.entry.count }
{
    for i in 0..rows.count {
        let y = rows.get(i);
        requests::mark(s, announcing::evict::key_of(y));
    }
}

// The parents of the connection n that wait come in.
pub fn let_in(s: &mut [u8], new: &mut Waiting, n: u64)
    requires { Waits n s.old (words new.old.bytes) new.old.count }
    ensures { LetIn n s.old s.new (words new.old.bytes) (words new.new.bytes) new.old.count × (new.new.count ≡ 0) }
{
    if new.count == 0 {
        return;
    }
    let rows = Records::new(&new.bytes, new.count);
    gathering::coming::come_in(s, n, rows);
    mark_rows(s, rows);
    gathering::region::clear(&mut new.bytes);
    new.count = 0;
}

// Whether the parent waits with those before it: where they are many, it does if it comes in without another's giving way.
fn wait_with(s: &[u8], new: &mut Waiting, p: Parent) -> bool
    requires { Kept s.now }
    ensures { WaitsWith p.connection.number p.clock (hash_num p.hash) p.priority s.now (words new.old.bytes) (words new.new.bytes) new.old.count result
        × (new.new.count ≡ new.old.count + one result) }
{
    if p.count < FEW {
        return false;
    }
    new.set_aside(s, p.offered()) == Fare::Waits
}

// Whether the connection n has announced the hash h, at which none of those that wait is.
pub fn adoptable(s: &[u8], new: &Waiting, h: ident::Hash, n: u64) -> bool
    requires { Kept s.now }
    ensures { Adoptable s.now (words new.now.bytes) new.now.count (hash_num h) n result }
{
    if !requests::is_candidate(s, h, n) {
        return false;
    }
    !gathering::region::waits_at(Records::new(&new.bytes, new.count), h)
}

// What the parent brings is adopted in place, if its connection has announced its hash and none of those that wait is at it: they wait on.
fn adopt_beside(s: &mut [u8], new: &Waiting, p: Parent) -> bool
    requires { Waits p.connection.number s.old (words new.now.bytes) new.now.count }
    ensures { AdoptsBeside p.connection.number p.clock (hash_num p.hash) p.priority s.old s.new (words new.now.bytes) new.now.count result }
{
    if new.count == 0 {
        return false;
    }
    if !adoptable(s, new, p.hash, p.connection.number) {
        return false;
    }
    announcing::parents::announce_parent(s, p.connection, p.clock, p.hash, p.priority as u64);
    true
}

// Announces the parent beside those that wait, and says whether it was kept: it waits with them, or is adopted, or else they come in first.
pub fn announce_next(s: &mut [u8], new: &mut Waiting, p: Parent) -> bool
    requires { Waits p.connection.number s.old (words new.old.bytes) new.old.count }
    ensures { NextIn p.connection.number p.clock (hash_num p.hash) p.priority s.old s.new (words new.old.bytes) (words new.new.bytes) new.old.count
        (record { kept = result; waiting = new.new.count }) }
{
    if wait_with(s, new, p) {
        return true;
    }
    if adopt_beside(s, new, p) {
        return true;
    }
    let_in(s, new, p.connection.number);
    announcing::parents::announce_parent(s, p.connection, p.clock, p.hash, p.priority as u64)
}

// Those that wait come in: their rows are merged with the store's, and counted to their connections.
ghost use Rattle.words.specs.Words.{words};
ghost use Rattle.gathering.specs.Aside.{Gathers, GathersAll, ComeIn, ComeInAll};
ghost use Rattle.gathering.specs.Coming.{Uncounted, CountedTo};

use crate::together;
use regions::Row;
use regions::listed::Records;

// The rows `new` of the connection n come in. It is counted once for all of them.
pub fn come_in(s: &mut [u8], n: u64, new: Records<Row>)
    requires { Gathers s.old n (words new.bytes.now) new.count }
    ensures { ComeIn s.old s.new n (words new.entry.bytes.now) new.entry.count }
{
    if new.count == 0 {
        return;
    }
    together::add_rows(s, new);
    store::counting::count_in(s, n, new.count as u64);
}

// The rows `new`, which have come in, are counted to their connections.
fn count_each(s: &mut [u8], new: Records<Row>)
    requires { Uncounted s.old (words new.bytes.now) new.count }
    ensures { CountedTo s.old s.new (words new.entry.bytes.now) new.entry.count new.entry.count }
{
    for i in 0..new.count {
        store::counting::count_in(s, new.get(i).conn, 1);
    }
}

// The rows `new`, of any connections, come in.
pub fn come_in_all(s: &mut [u8], new: Records<Row>)
    requires { GathersAll s.old (words new.bytes.now) new.count }
    ensures { ComeInAll s.old s.new (words new.entry.bytes.now) new.entry.count }
{
    together::add_rows(s, new);
    count_each(s, new);
}

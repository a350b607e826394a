// Entries that each stand for one row, counted into a table at their front. (Of entries in order each is the table's last, or comes behind
// it.) The bytes change, so that the numbers of entries go beside them.
ghost use Rattle.std.specs.Prelude.{◌+◌, ◌*◌, ◌≤◌, length};
ghost use Rattle.words.specs.Words.{words};
ghost use Rattle.regions.specs.Rows.{conn_size};
ghost use Rattle.tallying.specs.Entries.{Underway, EntryAt, Counts, Filled, Settled};

use crate::heap;
use regions::Conn;
use regions::listed::Records;

// Whether there is a p-th entry, and it is x's.
fn is_entry(table: Records<Conn>, p: usize, x: u64) -> bool
    ensures { EntryAt (words table.entry.bytes.now) table.entry.count p x result }
{
    p < table.count && table.get(p).conn == x
}

// Counts the j-th entry into the table, which has m entries. Answers how many it has then.
#[tactic(auto, using(crate::proofs::Tables::counting))]
fn count(r: &mut [u8], m: usize, j: usize) -> usize
    requires { (m ≤ j) × (8 * (conn_size * (j + 1)) ≤ length r.old) × Underway (words r.old) m j }
    ensures { (result ≤ j + 1) × Counts (words r.old) (words r.new) m j result }
{
    let c = regions::read::<Conn>(r, j);
    // an entry of one row owns none or one
    let o = c.owned % 2;
    let p = regions::seek_conn(r, m, c.conn);
    if is_entry(Records::new(r, m), p, c.conn) {
        let e = regions::read::<Conn>(r, p);
        let d = Conn {
            held: e.held + 1,
            owned: e.owned + o,
            ..e
        };
        regions::write(r, p, d);
        return m;
    }
    let d = Conn {
        conn: c.conn,
        held: 1,
        owned: o,
    };
    regions::insert(r, m, p, d);
    m + 1
}

// Makes the first n entries their table. Answers how many entries it has.
fn collect(r: &mut [u8], n: usize) -> usize
    requires { (8 * (conn_size * n) ≤ length r.old) × Filled (words r.old) n }
    ensures { Settled (words r.old) (words r.new) n result }
{
    let mut m = 0;
    for j in 0..n {
        m = count(r, m, j);
    }
    regions::truncate::<Conn>(r, n, m);
    m
}

// The same, of entries in any order.
pub fn settle(r: &mut [u8], n: usize) -> usize
    requires { (8 * (conn_size * n) ≤ length r.old) × Filled (words r.old) n }
    ensures { Settled (words r.old) (words r.new) n result }
{
    heap::sort(r, n);
    collect(r, n)
}

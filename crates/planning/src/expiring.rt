// Owners whose time is over (document 01, "plan"): "each owner with now >= deadline, ascending, fails and its parents are announced".
ghost use Rattle.std.specs.Prelude.{◌≡◌, ◌+◌, ◌≤◌};
ghost use Rattle.ident.specs.Words.{key_num};
ghost use Rattle.store.specs.Shown.{rows_in, Kept};
ghost use Rattle.requests.specs.Changes.{Makes};
ghost use Rattle.postponing.specs.Pending.{Unplaced};
ghost use Rattle.apart.specs.Apart.{Rested};
ghost use Rattle.planning.specs.Expiring.{is_still, SeekDue, behind, NextDue, ExpiresAll};
ghost use Rattle.planning.specs.Silent.{silenced, MadeReady};

use apart::SLOT;
use apart::delayed::Delayed;
use apart::lapsing::Progress;
use ident::connection::Connection;

// An owner whose time is over: its request's key, and its connection, as a row has it.
#[derive(Clone, Copy)]
pub struct Overdue {
    pub key: ident::Key,
    pub connection: u64,
}

// Whether the row says an owner whose time is over, and who has the deadline `low` at least: one that has failed and is to go has the deadline 0.
fn is_still(r: regions::Row, low: u64, clock: u64) -> bool
    ensures { result ≡ is_still low clock r }
{
    postponing::silent::is_due(r, clock) & (low <= r.deadline)
}

// The first of the rows from `from` on whose owner's time is over. (A loop: tried with `find` over the indices, after which the row is read once more; that this
// is the row found holds by what the bytes show, and was left open. A `map` to rows before it has no list of rows to name in a proof.)
fn seek_due(s: &[u8], low: u64, clock: u64, from: usize) -> Option<regions::Row>
    requires { Kept s.now × (from ≤ rows_in s.now) }
    ensures { SeekDue s.now low clock from result }
{
    for i in from..store::head::rows(s) {
        let r = store::rows::row_at(s, i);
        if is_still(r, low, clock) {
            return Some(r);
        }
    }
    None
}

// The first owner that is due at the keys after `last`, or at all keys, with the deadline `low` at least.
fn next_due(s: &[u8], low: u64, clock: u64, last: Option<ident::Key>) -> Option<Overdue>
    requires { Kept s.now }
    ensures { NextDue s.now low clock (behind last) result }
{
    let r = seek_due(s, low, clock, sweeping::batch::after_cursor(s, last))?;
    Some(Overdue {
        key: announcing::evict::key_of(r),
        connection: r.conn,
    })
}

// All candidates of the hash of an owner that is due, under both kinds, get ready at `clock`.
fn ready_due(s: &mut [u8], clock: u64)
    requires { Kept s.old }
    ensures { MadeReady s.old s.new clock }
{
    let mut done = None;
    // no iterator: each turn searches a store that the one before it changed
    while let Some(due) = next_due(s, 0, clock, done) {
        requests::ready_all(s, due.key, clock);
        requests::ready_all(s, ident::same_hash_other_kind(due.key), clock);
        done = Some(due.key);
    }
}

// Every owner whose time is over fails, where no request has a place: then no parent is announced, and the rows move once, however many owners they are and whatever
// deadlines they have.
fn expire_silent(s: &mut [u8], clock: u64)
    requires { Kept s.old }
    ensures { Makes s.old s.new Unplaced (silenced clock) }
{
    ready_due(s, clock);
    postponing::silent::drop_due(s, clock);
}

// Every owner whose time is over fails, in key order, and its parents are announced for it. The rows stay until many have failed and many parents wait: then those go
// and these come in together. Where nobody can be evicted any more no later parent looks for a victim. Answers how many places at most have notes.
fn expire_each(s: &mut [u8], m: usize, first: &mut [u8; SLOT], c: usize, clock: u64) -> usize
    requires { Rested s.old first.old m c }
    ensures { ExpiresAll s.old s.new first.old first.new m c clock result }
{
    let mut delayed = Delayed::start(&s[..m]);
    let mut last = None;
    let mut known = Progress {
        noted: 0,
        spent: false,
    };
    // no iterator: each turn searches a store that the one before it changed
    while let Some(due) = next_due(&s[..m], delayed.least(), clock, last) {
        let owner = Connection {
            number: due.connection,
        };
        known = apart::lapsing::expire_one(
            s,
            m,
            first,
            c,
            &mut delayed,
            due.key,
            owner,
            clock,
            known,
        );
        last = Some(due.key);
    }
    delayed.end(&mut s[..m]);
    known.noted
}

// Every owner whose time is over fails, in key order, and its parents are announced for it. The c places of the store are set apart; the parents kept are noted at their place.
// Answers how many places at most have notes. Whether anybody's time is over is seen before the rows that wait are made room for, and all are read for the deadline 0. (The
// store, m, the first place and the count travel together as in crates/apart, and are no struct for its reason: apart::slots. By itself: inlined, the rows that wait would
// stand on the stack beside what the test of the bytes goes by.)
#[inline(never)]
pub fn expire(s: &mut [u8], m: usize, first: &mut [u8; SLOT], c: usize, clock: u64) -> usize
    requires { Rested s.old first.old m c }
    ensures { ExpiresAll s.old s.new first.old first.new m c clock result }
{
    if next_due(&s[..m], 0, clock, None).is_none() {
        return 0;
    }
    if c == 0 {
        expire_silent(&mut s[..m], clock);
        return 0;
    }
    expire_each(s, m, first, c, clock)
}

// An owner whose time is over, where the places are set apart: it fails, its place dies, and its parents are announced and noted.
// Store, m and first place go apart for the reason at the head of `slots`; connection and clock as document 01 gives them to each of these steps.
ghost use Rattle.std.specs.Prelude.{false};
ghost use Rattle.ident.specs.Words.{key_num};
ghost use Rattle.apart.specs.Delayed.{delay_of};
ghost use Rattle.apart.specs.Lapsing.{Lapses, PlaceExpiring, PlaceExpires, Expiring, Expires};

use crate::delayed::Delayed;
use crate::parents::Parents;
use crate::{SLOT, noting, slots};
use ident::connection::Connection;
use places::ENQUEUED;

// The owner n of the request at k, whose place is p, fails, unless its package is Enqueued, and the place dies.
fn lapse(
    s: &mut [u8],
    m: usize,
    first: &mut [u8; SLOT],
    p: slots::Spot,
    delayed: &mut Delayed,
    k: ident::Key,
    n: u64,
    clock: u64,
)
    requires { PlaceExpiring s.old first.old m (delay_of delayed.old) p (key_num k) n false }
    ensures { Lapses s.old s.new first.old first.new m (delay_of delayed.old) (delay_of delayed.new) p (key_num k) n clock }
{
    if p.stage != ENQUEUED {
        delayed.fail(&mut s[..m], k, n, clock);
        slots::kill(s, m, first, p.at);
    }
}

// The owner n of the request at k, whose place is p, lapses, and its parents are announced; answers which were kept. `spent` is handed on.
fn expire_place(
    s: &mut [u8],
    m: usize,
    first: &mut [u8; SLOT],
    p: slots::Spot,
    delayed: &mut Delayed,
    k: ident::Key,
    n: Connection,
    clock: u64,
    spent: bool,
) -> noting::Announced
    requires { PlaceExpiring s.old first.old m (delay_of delayed.old) p (key_num k) n.number spent }
    ensures { PlaceExpires s.old s.new first.old first.new m (delay_of delayed.old) (delay_of delayed.new) p (key_num k) n.number clock spent result }
{
    let mut slot = [0; SLOT];
    slots::load(s, m, first, p.at, &mut slot);
    lapse(s, m, first, p, delayed, k, n.number, clock);
    let parents = Parents {
        slot: &slot,
        count: p.parents,
        connection: n,
        clock,
    };
    noting::announce_all(&mut s[..m], parents, delayed, spent)
}

// What is known while owners expire: how many places at most have notes. `spent` is a property of the tracker: nobody can be evicted.
#[derive(Clone, Copy)]
pub struct Progress {
    pub noted: usize,
    pub spent: bool,
}

// The owner n of the request at k, whose time is over, expires: it fails, unless its package is Enqueued, and its parents are announced
// for it. Those kept are noted at its place, of which there are c.
pub fn expire_one(
    s: &mut [u8],
    m: usize,
    first: &mut [u8; SLOT],
    c: usize,
    delayed: &mut Delayed,
    k: ident::Key,
    n: Connection,
    clock: u64,
    q: Progress,
) -> Progress
    requires { Expiring s.old first.old m c (delay_of delayed.old) (key_num k) n.number q.spent }
    ensures { Expires s.old s.new first.old first.new m c (delay_of delayed.old) (delay_of delayed.new) (key_num k) n.number clock q result }
{
    let Some(p) = slots::find(s, m, first, c, k) else {
        delayed.fail(&mut s[..m], k, n.number, clock);
        return q;
    };
    let r = expire_place(s, m, first, p, delayed, k, n, clock, q.spent);
    slots::set_note(s, m, first, p.at, r.note);
    Progress {
        noted: p.at + 1,
        spent: r.spent,
    }
}

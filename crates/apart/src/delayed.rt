// Owners that fail and parents that are announced, while others wait (crates/postponing): rows move once for many of them, of whatever owners. Where an owner of the
// store has the deadline 0 from before, which tells those that are to go, nothing waits from one owner to the next.
ghost use Rattle.std.specs.Prelude.{◌≡◌, not};
ghost use Rattle.ident.specs.Words.{hash_num, key_num};
ghost use Rattle.words.specs.Words.{words};
ghost use Rattle.store.specs.Shown.{Kept};
ghost use Rattle.parenting.specs.Displacing.{reserve_of};
ghost use Rattle.apart.specs.Delayed.{delay_of, Starts, Ends, Lowest, PendsIf, FailsIn, Fails, Opens, Closes, OneIn, BesideIn};

use gathering::region;
use gathering::rows::Waiting;
use parenting::displacing;
use parenting::displacing::Known;
use parenting::parent::Parent;
use postponing::among::Reply;
use postponing::{among, lapsing, later, settling};

// What waits: parents to come in, and how many owners are to go.
#[derive(Drop)]
pub struct Delayed {
    pub rows: Waiting,
    pub gone: usize,
    // Whether an owner goes later, with others.
    pub later: bool,
    // Whether the parents that are announced now are announced by themselves.
    pub alone: bool,
}

impl Delayed {
    // Nothing waits yet beside the store.
    pub fn start(s: &[u8]) -> Self
        requires { Kept s.now }
        ensures { Starts s.now (delay_of result) }
    {
        let later = lapsing::timely(s);
        Delayed {
            rows: Waiting::none(),
            gone: 0,
            later,
            alone: !later,
        }
    }

    // The least deadline of an owner that has not failed.
    pub fn least(&self) -> u64
        ensures { Lowest self.now.later result }
    {
        if self.later {
            return 1;
        }
        0
    }

    // The owner n of the request at k fails.
    pub fn fail(&mut self, s: &mut [u8], k: ident::Key, n: u64, clock: u64)
        requires { FailsIn s.old (delay_of self.old) (key_num k) n }
        ensures { Fails s.old s.new (delay_of self.old) (delay_of self.new) (key_num k) n clock }
    {
        if self.later {
            self.gone = later::fail_later(s, &mut self.rows, self.gone, k, n, clock);
            return;
        }
        failing::failed(s, k, n, clock);
    }

    // Announces the parent beside those that wait; none, if it is to be announced by itself.
    fn announce_beside(&mut self, s: &mut [u8], spent: bool, p: Parent) -> Option<bool>
        requires { PendsIf (not self.old.alone) s.old (delay_of self.old) }
        ensures { BesideIn p.connection.number p.clock (hash_num p.hash) p.priority s.old s.new (delay_of self.old) (delay_of self.new) spent result }
    {
        if self.alone {
            return None;
        }
        match among::announce_among(s, &mut self.rows, self.gone, spent, p) {
            Reply::Kept => Some(true),
            Reply::Refused => Some(false),
            Reply::Alone => {
                settling::settle(s, &mut self.rows, self.gone);
                self.alone = true;
                None
            }
        }
    }

    // Announces the parent, and says whether it was kept.
    pub fn announce(&mut self, s: &mut [u8], q: &mut Known, p: Parent) -> bool
        requires { Opens p.connection.number s.old (words q.old.listed.bytes) (delay_of self.old) (reserve_of q.old) }
        ensures { OneIn p.connection.number p.clock (hash_num p.hash) p.priority s.old s.new (words q.old.listed.bytes) (words q.new.listed.bytes)
            (delay_of self.old) (delay_of self.new) (reserve_of q.old) (reserve_of q.new) result }
    {
        if let Some(kept) = self.announce_beside(s, q.spent, p) {
            return kept;
        }
        displacing::announce_further(s, &mut self.rows, q, p)
    }

    // All parents of an owner have been announced, for the connection n: those that wait for victims come in.
    pub fn close(&mut self, s: &mut [u8], q: &mut Known, n: u64)
        requires { Opens n s.old (words q.old.listed.bytes) (delay_of self.old) (reserve_of q.old) }
        ensures { Closes n s.old s.new (words q.old.listed.bytes) (delay_of self.old) (delay_of self.new) (reserve_of q.old) × (q.new.spent ≡ q.old.spent) }
    {
        if !self.alone {
            return;
        }
        displacing::finish(s, &mut self.rows, q, n);
        region::clear(&mut self.rows.bytes);
        self.rows.count = 0;
        self.gone = 0;
        self.alone = !self.later;
    }

    // Nothing waits any more.
    pub fn end(&mut self, s: &mut [u8])
        requires { PendsIf self.old.later s.old (delay_of self.old) }
        ensures { Ends s.old s.new (delay_of self.old) }
    {
        if self.later {
            settling::settle(s, &mut self.rows, self.gone);
        }
    }
}

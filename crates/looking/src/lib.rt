// When to look again (document 02, request c): "the least time later than now among ready times of unowned keys and deadlines of owned ones".
//
// One pass over the rows, from the last to the first. The rows of a key stand together: what they have come to is kept until the next key begins,
// since a row further on may own the request.
#![tactic(auto, using(requests::proofs::Keeping::kept_shown, sweeping::proofs::Lent::kept_head))]

ghost use Rattle.std.specs.Prelude.{ℕ, ◌≡◌, ◌+◌, ◌≤◌, ◌<◌, List, [], ◌∷◌};
ghost use Rattle.std.proofs.Math.Option.{Option, none};
ghost use Rattle.machine.specs.State.{Candidate, Owner, Table};
ghost use Rattle.machine.specs.Later.{next_look};
ghost use Rattle.store.specs.Flat.{Flat};
ghost use Rattle.store.specs.Gather.{candidate_at, owner_at, gather};
ghost use Rattle.store.specs.Image.{Shows};
ghost use Rattle.store.specs.Shown.{rows_in, Shown, Kept};
ghost use Rattle.requests.specs.Changes.{Tells};
ghost use Rattle.announcing.specs.Evicts.{part};
ghost use Rattle.choosing.specs.Choosing.{option_of};
ghost use Rattle.looking.specs.Looking.{Looks, LooksAt};

use choosing::later::{earlier, later};

// What the rows from here on have come to: of the key at hand until when it is owned, if it is, and its least later ready time; and the next look at the
// keys behind it.
#[derive(Clone, Copy)]
pub struct Look {
    pub due: Option<u64>,
    pub free: Option<u64>,
    pub rest: Option<u64>,
}

impl Look {
    // No row yet of the key at hand; rest: the next look at the keys behind it. (`due` and `free` are of the key at hand: here it begins.)
    fn before_rows(rest: Option<u64>) -> Look
        ensures { (clock : ℕ) (t : Table) → option_of rest ≡ next_look clock t → Looks clock none [] t result }
    {
        Look {
            due: None,
            free: None,
            rest,
        }
    }

    // The next look at the key at hand and those behind it.
    fn settled(self, clock: u64) -> Option<u64>
        ensures { (t : Table) → LooksAt clock t self → option_of result ≡ next_look clock t }
    {
        match self.due {
            Some(due) => earlier(later(clock, due), self.rest),
            None => earlier(self.free, self.rest),
        }
    }

    // One row more of the key at hand.
    fn with_row(self, clock: u64, r: regions::Row) -> Look
        ensures { (o : Option Owner) (cs : List Candidate) (t : Table) → Looks clock o cs t self → Looks clock (owner_at r o) (candidate_at r ∷ cs) t result }
    {
        let owns = r.owns();
        Look {
            due: if owns { Some(r.deadline) } else { self.due },
            free: earlier(later(clock, r.ready), self.free),
            ..self
        }
    }
}

// One row more, the i-th of n: it ends a key, or is followed by a row of its own.
fn turn(s: &[u8], v: Look, clock: u64, i: usize, n: usize) -> Look
    requires { Shown s.now × (i < n) × (n ≤ rows_in s.now) }
    ensures { (f : Flat) → Shows s.now f → LooksAt clock (gather (part (i + 1) n f.rows)) v → LooksAt clock (gather (part i n f.rows)) result }
{
    let r = store::rows::row_at(s, i);
    let key = if sweeping::batch::ends_key(s, r, i + 1, n) {
        Look::before_rows(v.settled(clock))
    } else {
        v
    };
    key.with_row(clock, r)
}

// The least time later than the clock among the ready times of unowned keys and the deadlines of owned ones.
pub fn next_look(s: &[u8], clock: u64) -> Option<u64>
    requires { Kept s.now }
    ensures { Tells s.now (λ t. option_of result ≡ next_look clock t) }
{
    let n = store::head::rows(s);
    let mut v = Look::before_rows(None);
    for i in (0..n).rev() {
        v = turn(s, v, clock, i, n);
    }
    v.settled(clock)
}

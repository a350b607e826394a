// One of the parents that are announced for a connection.
ghost use Rattle.std.specs.Prelude.{◌≡◌, ◌≤◌, ◌<◌};
ghost use Rattle.ident.specs.Words.{hash_num};
ghost use Rattle.machine.specs.Limits.{max_parents};
ghost use Rattle.machine.specs.Fail.{parent_of};
ghost use Rattle.requests.specs.Changes.{candidate_of};

use ident::connection::Connection;

// The hash of a parent, of how many parents it is, and at which place: its priority.
#[derive(Clone, Copy)]
pub struct Parent {
    pub hash: ident::Hash,
    pub connection: Connection,
    pub clock: u64,
    pub priority: usize,
    pub count: usize,
    ghost few: { (priority < count) × (count ≤ max_parents) },
}

impl Parent {
    // The candidate that it makes.
    pub fn offered(self) -> requests::Candidate
        ensures { candidate_of result ≡ parent_of self.connection.number self.clock (hash_num self.hash) self.priority }
    {
        announcing::parents::offered(
            self.hash,
            self.connection.number,
            self.clock,
            self.priority as u64,
        )
    }

    // How many parents are left with it.
    pub fn left(self) -> usize
        ensures { (1 ≤ result) × (result ≤ max_parents) }
    {
        self.count - self.priority
    }
}

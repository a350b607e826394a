// Parents of a place, as they are announced: read from the bytes of the place.
ghost use Rattle.std.specs.Prelude.{◌≤◌, ◌<◌};
ghost use Rattle.words.specs.Words.{words};
ghost use Rattle.places.specs.Places.{list_most};
ghost use Rattle.apart.specs.Noting.{ParentAt};

use crate::SLOT;
use ident::connection::Connection;
use parenting::parent::Parent;

// The first parents of a place, announced for a connection at a time.
#[derive(Clone, Copy)]
pub struct Parents<'a> {
    pub slot: &'a [u8; SLOT],
    pub count: usize,
    pub connection: Connection,
    pub clock: u64,
    ghost few: { count ≤ list_most },
}

impl<'a> Parents<'a> {
    // The j-th of them.
    pub fn parent(self, j: usize) -> Parent
        requires { j < self.count }
        ensures { ParentAt (words self.entry.slot.now) self.entry.connection.number self.entry.clock j result }
    {
        Parent {
            hash: crate::noting::parent_of(self.slot, j),
            connection: self.connection,
            clock: self.clock,
            priority: j,
            count: self.count,
        }
    }
}

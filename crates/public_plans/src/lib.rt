// The public calls of a plan, of what is sent and of the owners of hashes, and the wrappers' (document 01, "The request machine"). Each takes any store and asks nothing
// of it (crates/outcome).
#![tactic(auto)]

ghost use Rattle.std.specs.Prelude.{◌≡◌};
ghost use Rattle.public_plans.specs.Entries.{selection_of};

pub mod arrangements;
pub mod on_sound;
pub mod ownership;
pub mod plans;
pub mod wrappers;

// How many keys a plan considered, how many entries stand in the answer buffer, and when to look again (document 02, request c).
#[derive(Clone, Copy, Debug, PartialEq, Eq)]
pub struct Selection {
    pub considered: u64,
    pub chosen: u64,
    pub next: Option<u64>,
}

impl From<planning::plan::Planned> for Selection {
    ghost from_gives = { λ planned s. s ≡ selection_of planned };

    fn from(planned: planning::plan::Planned) -> Selection {
        Selection {
            considered: planned.considered,
            chosen: planned.count as u64,
            next: planned.next,
        }
    }
}

// What a request's line may have or miss: an owner, a package.
ghost use Rattle.std.specs.Prelude.{◌+◌, ◌≤◌, length};
ghost use Rattle.machine.specs.Fields.{rest};
ghost use Rattle.machine.specs.Listing.{short, none_or, owner_then, package_then};
ghost use Rattle.listed_lines.specs.Given.{Took, list_room, owner_there, owner_at, package_at};

use crate::hash_lists::list_at;
use crate::pieces::{maybe_at, none_at};
use reading::fields::{Parsed, bool_at, hash_at, number_at};

// The connection that is asked, and until when. (Its like in crates/package_stages is of a store; this crate reads texts and has no store below it.)
#[derive(Clone, Copy)]
pub struct Owner {
    pub connection: u64,
    pub deadline: u64,
}

// A package: its combined hash, how many wtxids it has, whether it is Enqueued: a bit of the line, of packages alone, as a request may be flagged too.
#[derive(Clone, Copy)]
pub struct Package {
    pub combined: regions::Quad,
    pub wtxids: usize,
    pub enqueued: bool,
}

fn owner_there(line: &[u8], e: usize) -> Option<Parsed<Owner>>
    ensures { Took owner_then line.now (rest line.now (e + 1)) (owner_there result) }
{
    let connection = number_at(line, e)?;
    let deadline = number_at(line, connection.end)?;
    Some(Parsed {
        value: Owner {
            connection: connection.value,
            deadline: deadline.value,
        },
        end: deadline.end,
    })
}

// The owner behind the comma at index e, or `none`.
pub fn owner_at(line: &[u8], e: usize) -> Option<Parsed<Option<Owner>>>
    ensures { Took (none_or owner_then) line.now (rest line.now (e + 1)) (owner_at result) }
{
    maybe_at(line, e, owner_there)
}

// The package behind the comma at index e, or `none`; its wtxids go into `wtxids`. (No `maybe_at`: what it takes is callable in any case, and its contract speaks
// of the answer alone; here room for wtxids is asked for, and the promise is of what stands there then.)
pub fn package_at(line: &[u8], e: usize, wtxids: &mut [u8]) -> Option<Parsed<Option<Package>>>
    requires { list_room ≤ length wtxids.old }
    ensures { Took (none_or (package_then short)) line.now (rest line.now (e + 1)) (package_at wtxids.new result) }
{
    if let Some(end) = none_at(line, e) {
        return Some(Parsed { value: None, end });
    }
    let combined = hash_at(line, e)?;
    let list = list_at(line, combined.end, 1, wtxids)?;
    let enqueued = bool_at(line, list.end)?;
    Some(Parsed {
        value: Some(Package {
            combined: combined.value,
            wtxids: list.value,
            enqueued: enqueued.value,
        }),
        end: enqueued.end,
    })
}

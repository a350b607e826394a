// A connection's parents announced (`kin`), and its package claims given up (`lost`); their keys as text.
//
// Two functions of one shape. One over the call as a closure would ask in its contract that whatever the call may answer fits (`KeysFit`), and say by the closure's own
// steps what it left of the store: longer than the three calls that they share.
ghost use Rattle.std.specs.Prelude.{◌≤◌, length};
ghost use Rattle.machine.specs.Call.{On, AnnounceParents, FailedPackageClaims};
ghost use Rattle.lent_lists.specs.Lists.{hashes_in};
ghost use Rattle.asking.specs.Calls.{answer_buffer};
ghost use Rattle.printing.specs.Given.{answer_room, Carried};

use printing::buffers::answer_buffer;
use printing::keys::listing;

pub fn announce_parents(
    store: &mut [u8],
    out: &mut [u8],
    connection: u64,
    parents: &[u8],
    clock: u64,
) -> usize
    requires { answer_room ≤ length out.old }
    ensures { Carried (On (AnnounceParents connection (hashes_in parents.now) clock answer_buffer)) store.old store.new out.old out.new result }
{
    let mut answer = answer_buffer();
    let a = public_requests::candidates::announce_parents(
        store,
        connection,
        parents,
        clock,
        &mut answer,
    );
    listing(out, &answer, a)
}

pub fn failed_package_claims(
    store: &mut [u8],
    out: &mut [u8],
    connection: u64,
    combined: &[u8],
    clock: u64,
) -> usize
    requires { answer_room ≤ length out.old }
    ensures { Carried (On (FailedPackageClaims connection (hashes_in combined.now) clock answer_buffer)) store.old store.new out.old
        out.new result }
{
    let mut answer = answer_buffer();
    let a = public_packages::package_claims::failed_package_claims(
        store,
        connection,
        combined,
        clock,
        &mut answer,
    );
    listing(out, &answer, a)
}

// Who owns each of a list of hashes (`whose`; document 02, request e), as text.
ghost use Rattle.std.specs.Prelude.{◌≤◌, length};
ghost use Rattle.machine.specs.Call.{On, OwnersOf};
ghost use Rattle.lent_lists.specs.Lists.{hashes_in};
ghost use Rattle.public_plans.specs.Ownership.{owners_of};
ghost use Rattle.asking.specs.Calls.{owners_buffer};
ghost use Rattle.printing.specs.Given.{answer_room, OwnersFit, ReplyPrinted, Carried};

use outcome::Refusal;
use printing::buffers::owners_buffer;
use printing::holdings::put_owners;
use printing::numbers::refusal;

// A refusal, or the owners of an answer.
fn listing(out: &mut [u8], answer: &[u8], hashes: &[u8], a: Result<u64, Refusal>) -> usize
    requires { (answer_room ≤ length out.old) × OwnersFit (owners_of (hashes_in hashes.now) a answer.now) answer.now }
    ensures { ReplyPrinted out.old out.new (owners_of (hashes_in hashes.now) a answer.now) result }
{
    match a {
        Ok(n) => put_owners(out, answer, hashes, n),
        Err(cause) => refusal(out, u64::from(cause)),
    }
}

pub fn owners_of(store: &mut [u8], out: &mut [u8], hashes: &[u8]) -> usize
    requires { answer_room ≤ length out.old }
    ensures { Carried (On (OwnersOf (hashes_in hashes.now) owners_buffer)) store.old store.new out.old out.new result }
{
    let mut answer = owners_buffer();
    let a = public_plans::ownership::owners_of(store, hashes, &mut answer);
    listing(out, &answer, hashes, a)
}

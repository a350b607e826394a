// Owners of an answer buffer as text, parted by commas (document 02, request e).
ghost use Rattle.std.specs.Prelude.{◌≡◌, ◌+◌, ◌*◌, ◌≤◌, ◌<◌, ◌∷◌, length, drop};
ghost use Rattle.regions.specs.Rows.{quad_number};
ghost use Rattle.machine.specs.Call.{owner_bytes};
ghost use Rattle.lent_lists.specs.Lists.{hashes_in};
ghost use Rattle.owners.specs.Back.{holding_in, holdings_in};
ghost use Rattle.machine.specs.Text.{decimal, joined};
ghost use Rattle.lines.specs.Text.{Wrote, with_commas};
ghost use Rattle.printing.specs.Replies.{owner_text, owner_texts};
ghost use Rattle.printing.specs.Given.{answer_room, most_owners, owner_room, Printed};

use crate::entries::put_number;
use lines::write::put_bytes;

// The i-th owner, that of the hash h: `none`, or key, connection and deadline, each behind a comma.
fn put_owner(out: &mut [u8], at: usize, answer: &[u8], i: usize, h: regions::Quad) -> usize
    requires { (owner_bytes * i + owner_bytes ≤ length answer.now) × (at + owner_room ≤ length out.old) }
    ensures { Wrote out.old out.new at (with_commas (owner_text (holding_in (quad_number h) (drop (owner_bytes * i) answer.now)))) result }
{
    let Some(owner) = owners::owner_at(answer, i) else {
        return put_bytes(out, at, b",none");
    };
    let from = put_bytes(out, at, b",");
    let e = lines::write::put_key(out, from, owner.kind, h);
    let e = put_number(out, e, owner.connection);
    put_number(out, e, owner.deadline)
}

// How many keys were passed, and behind it the owner of each hash.
pub fn put_owners(out: &mut [u8], answer: &[u8], hashes: &[u8], passed: u64) -> usize
    requires { (answer_room ≤ length out.old) × (length (hashes_in hashes.now) ≤ most_owners) × (owner_bytes * length (hashes_in hashes.now) ≤ length answer.now) }
    ensures { Printed out.old out.new (joined (decimal passed ∷ owner_texts (holdings_in (hashes_in hashes.now) answer.now))) result }
{
    let n = lent_lists::hashes(hashes);
    let mut to = lines::write::put_decimal(out, 0, passed);
    for i in 0..n {
        let h = regions::Quad::from(lent_lists::hash_in(hashes, i));
        to = put_owner(out, to, answer, i, h);
    }
    to
}

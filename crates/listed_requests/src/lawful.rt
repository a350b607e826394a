// One request by itself: what document 01 asks of its owner, package, parents and mark, and of its candidates.
ghost use Rattle.std.specs.Prelude.{◌≡◌, ◌≤◌, is_some, length, take};
ghost use Rattle.ident.specs.declared.Kind.TheVariants.{Wtxid};
ghost use Rattle.machine.specs.Claim.{same_kind};
ghost use Rattle.machine.specs.SoundTest.{mark_fits};
ghost use Rattle.listed_lines.specs.Given.{list_room, owner_of};
ghost use Rattle.listed_requests.specs.Given.{packs, owner_among, LineFits, Judged};

use crate::candidates::{Gathered, Room, gather};
use crate::distinct::{all_distinct, hashes_distinct, stands};
use listed_lines::cursor::{Lines, Lists};
use listed_lines::line::Request;
use listed_lines::parts::Owner;
use machine::limits::MAX_PARENTS;

// (A function, as its contract says what the derived `==` means in document 01.)
pub fn is_wtxid(kind: ident::Kind) -> bool
    ensures { result ≡ same_kind kind Wtxid }
{
    kind == ident::Kind::Wtxid
}

// "the mark only on Txid keys"
fn mark_fits(kind: ident::Kind, mark: bool) -> bool
    ensures { result ≡ mark_fits kind mark }
{
    !mark || !is_wtxid(kind)
}

// The rows of the definition's table, by what the line has: "flag or package only with an owner, never both, only on Wtxid keys; parents .. only beside flag or package"
fn packs(r: Request) -> bool
    ensures { result ≡ packs r.key.kind (is_some r.owner) r.info (is_some r.packed) r.parents }
{
    match (r.info, r.packed) {
        (true, Some(_)) => false,
        (false, None) => r.parents == 0,
        _ => r.owner.is_some() && is_wtxid(r.key.kind),
    }
}

// Whether an owner, if there is one, is among the connections.
fn owner_stands(o: Option<Owner>, conns: &[u64]) -> bool
    ensures { result ≡ owner_among (owner_of o) conns.now }
{
    o.is_none_or(|o| stands(conns, o.connection))
}

// What a request's line says. Its parents stand in the lent bytes.
fn line_fits(r: Request, lists: &Lists) -> bool
    ensures { LineFits lists.now.parents.now r result }
{
    let n = r.parents;
    if MAX_PARENTS < n {
        return false;
    }
    if !hashes_distinct(lists.parents, n) {
        return false;
    }
    if !mark_fits(r.key.kind, r.mark) {
        return false;
    }
    packs(r)
}

// A request, whose candidates come next: how many it has, if it is lawful.
pub fn judge(lines: &mut Lines, r: Request, room: &mut Room) -> Option<usize>
    ensures same { lines.new.text ≡ lines.old.text }
    ensures judged { Judged lines.old.text.now lines.old.at room.old.lists.parents.now r result lines.new.at }
{
    if !line_fits(r, &room.lists) {
        return None;
    }
    let Gathered { count, fit } = gather(lines, r.key, 0, room)?;
    let conns = &room.conns[..count];
    let once = all_distinct(conns);
    let owner = owner_stands(r.owner, conns);
    // (`&`: each of them is known here, so that there is one way through and not four.)
    let fit = fit & once & owner & (0 < count);
    fit.then_some(count)
}

// The lines of candidates: connection, item, ready, preferred, priority.
ghost use Rattle.std.specs.Prelude.{◌+◌, ◌*◌, ◌/◌, ◌%◌, ◌≤◌, ◌∷◌};
ghost use Rattle.regions.specs.Rows.{quad_number};
ghost use Rattle.machine.specs.Listing.{short, item_field, CandidateLine};
ghost use Rattle.store.specs.Flat.{Flat};
ghost use Rattle.store.specs.Gather.{kind_is, item_kind_as, candidate_at};
ghost use Rattle.store.specs.Image.{Shows};
ghost use Rattle.store.specs.Shown.{rows_in, Shown};
ghost use Rattle.announcing.specs.Evicts.{part};
ghost use Rattle.lines.specs.Text.{key_room};
ghost use Rattle.saving.specs.Laid.{Lays, farthest, candidate_room, line_text, row_texts};

use crate::fields::{next_bool, next_number, put_hash, put_letter, put_number, put_text};

// The item of a row, behind a comma.
fn next_item(out: &mut [u8], at: usize, r: regions::Row) -> usize
    requires { at + (1 + key_room) ≤ farthest }
    ensures { (result ≤ at + (1 + key_room)) × Lays out.old out.new at
        (44 ∷ item_field short (record { kind = item_kind_as (kind_is (r.bits % 2)) (r.bits / 2 % 2); hash = quad_number r.hash })) result }
{
    let from = put_text(out, at, b",");
    let e = put_letter(out, from, r.kind(), r.is_witness());
    put_hash(out, e, r.hash)
}

fn put_candidate(out: &mut [u8], at: usize, r: regions::Row) -> usize
    requires { at + candidate_room ≤ farthest }
    ensures { (result ≤ at + candidate_room) × Lays out.old out.new at (line_text (CandidateLine (candidate_at r))) result }
{
    let e = put_number(out, at, r.conn);
    let e = next_item(out, e, r);
    let e = next_number(out, e, r.ready);
    let e = next_bool(out, e, r.is_preferred());
    let e = next_number(out, e, r.prio);
    put_text(out, e, b"\n")
}

// Those of the rows from .. to. (Two numbers: the walk's own index, and where the request's rows end. A `Window` would be made of them for this one call.)
pub fn put_candidates(s: &[u8], out: &mut [u8], at: usize, from: usize, to: usize) -> usize
    requires { Shown s.now × (from ≤ to) × (to ≤ rows_in s.now) × (at + candidate_room * to ≤ farthest + candidate_room * from) }
    ensures { (result + candidate_room * from ≤ at + candidate_room * to)
        × ((f : Flat) → Shows s.now f → Lays out.old out.new at (row_texts (part from to f.rows)) result) }
{
    let mut e = at;
    for i in from..to {
        let r = store::rows::row_at(s, i);
        e = put_candidate(out, e, r);
    }
    e
}

// The row of a candidate: its own line and that of its request.
ghost use Rattle.std.specs.Prelude.{◌≡◌, ◌≤◌, ◌<◌, [], ◌∷◌, ◌++◌};
ghost use Rattle.machine.specs.State.{owner_is};
ghost use Rattle.store.specs.Flat.{deadline_for, row_of};
ghost use Rattle.store.specs.Shown.{limit_in, rows_in, Shown, with_rows, Turns};
ghost use Rattle.listed_lines.specs.Given.{owner_of, request_in, candidate_in};

use listed_lines::line::{Candidate, Request};
use listed_lines::parts::Owner;
use regions::RowBits;

// Whether the connection n is asked.
fn is_owner(o: Option<Owner>, n: u64) -> bool
    ensures { result ≡ owner_is n (owner_of o) }
{
    matches!(o, Some(o) if o.connection == n)
}

fn deadline_for(o: Option<Owner>, n: u64) -> u64
    ensures { result ≡ deadline_for n (owner_of o) }
{
    match o {
        Some(o) if o.connection == n => o.deadline,
        _ => 0,
    }
}

fn row_of(r: Request, c: Candidate) -> regions::Row
    ensures { result ≡ row_of (request_in [] [] r) (candidate_in c) }
{
    let bits = RowBits {
        kind: r.key.kind,
        witness: c.kind == ident::ItemKind::WitnessTransaction,
        preferred: c.preferred,
        owns: is_owner(r.owner, c.connection),
        mark: r.mark,
    };
    regions::Row {
        hash: r.key.hash,
        conn: c.connection,
        ready: c.ready,
        prio: c.priority,
        deadline: deadline_for(r.owner, c.connection),
        bits: u64::from(bits),
    }
}

// One row more, behind the others.
pub fn add_candidate(s: &mut [u8], r: Request, c: Candidate)
    requires { Shown s.old × (rows_in s.old < limit_in s.old) }
    ensures { Turns s.old s.new (λ f. with_rows (f.rows ++ (row_of (request_in [] [] r) (candidate_in c) ∷ [])) f) }
{
    let row = row_of(r, c);
    let n = store::head::rows(s);
    store::parts::add(s, n, row);
}

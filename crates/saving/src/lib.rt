// Saving: the listing of a sound store's state (document 02, request b; docs/LISTING.md is the grammar).
//
// One walk over the rows: a request's line at its first row, then the lines of its candidates. Every field is measured, and written if it fits,
// so that the walk gives the listing's length over any buffer, and the listing over one that is long enough. The store is only read.
//
// A row's bits are read as `regions::Row` says.
#![tactic(auto)]

ghost use Rattle.std.specs.Prelude.{◌≤◌};
ghost use Rattle.machine.specs.Listing.{short, lines_of, text_of};
ghost use Rattle.store.specs.Shown.{Kept};
ghost use Rattle.requests.specs.Changes.{Tells};
ghost use Rattle.saving.specs.Laid.{Lays, head_room, Saves, Measures};

pub mod candidate_lines;
pub mod fields;
pub mod head_line;
pub mod request_lines;

// The lines of all requests and their candidates. (No `for`: i goes from the first row of a request to that of the next one.)
fn put_requests(s: &[u8], out: &mut [u8], from: usize) -> usize
    requires { Kept s.now × (from ≤ head_room) }
    ensures { Tells s.now (λ t. Lays out.old out.new from (text_of short (lines_of t)) result) }
{
    let n = store::head::rows(s);
    let mut at = from;
    let mut i = 0;
    while i < n {
        let r = store::rows::row_at(s, i);
        let k = announcing::evict::key_of(r);
        let q = package_stages::request_at(s, k);
        let e = request_lines::put_request(s, out, at, k, q);
        let to = q.rows.to;
        at = candidate_lines::put_candidates(s, out, e, i, to);
        i = to;
    }
    at
}

// The listing at the front of `answer`, if it fits; its length in any case.
pub fn write(s: &[u8], answer: &mut [u8]) -> usize
    requires { Kept s.now }
    ensures { Saves s.now answer.old answer.new result }
{
    let e = head_line::put_head(s, answer);
    put_requests(s, answer, e)
}

// How long the listing is.
pub fn length(s: &[u8]) -> usize
    requires { Kept s.now }
    ensures { Measures s.now result }
{
    write(s, &mut [])
}

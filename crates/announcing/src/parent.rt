// request_parent at a key: the candidate that the connection already is adopts what the new one brings.
ghost use Rattle.ident.specs.Words.{key_num};
ghost use Rattle.machine.specs.Announce as machine;
ghost use Rattle.store.specs.Shown.{Kept};
ghost use Rattle.requests.specs.Changes.{candidate_of};
ghost use Rattle.announcing.specs.Answers.{Answered};

use crate::keyed;
use requests::windows;

pub fn request_parent_at(s: &mut [u8], k: ident::Key, c: requests::Candidate) -> bool
    requires { Kept s.old }
    ensures { Answered s.old s.new result (λ m t. machine.request_parent_at m (key_num k) (candidate_of c) t) }
{
    let w = windows::windows_of(s, k.hash);
    let rows = w.of_kind(k.kind);
    if requests::holds_in(s, k, rows, c.connection) {
        requests::adopt_in(s, k, rows, c, true);
        return true;
    }
    let other = ident::same_hash_other_kind(k);
    let others = w.of_kind(other.kind);
    if requests::holds_in(s, other, others, c.connection) {
        requests::adopt_in(s, other, others, c, false);
        return true;
    }
    keyed::announce_in(s, k, w, c)
}

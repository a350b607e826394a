// announce, request_parent and announce_parents on the bytes of a sound store (document 01, "The request machine").
#![tactic(auto)]

ghost use Rattle.machine.specs.Announce as machine;
ghost use Rattle.store.specs.Shown.{Kept};
ghost use Rattle.requests.specs.Changes.{candidate_of};
ghost use Rattle.announcing.specs.Answers.{Answered};

pub mod dropping;
pub mod evict;
pub mod foremost;
pub mod keyed;
pub mod parent;
pub mod parents;

// An item of any other kind than t, v and w has no key. (The two differ in the call at the key: one function for both would take a closure that
// writes the lent store, and say in its clauses what such a closure promises, where each is a test and a call.)
pub fn announce(s: &mut [u8], c: requests::Candidate) -> bool
    requires { Kept s.old }
    ensures { Answered s.old s.new result (λ m t. machine.announce m (candidate_of c) t) }
{
    let Some(key) = ident::key_of(c.item) else {
        return false;
    };
    keyed::announce_at(s, key, c)
}

pub fn request_parent(s: &mut [u8], c: requests::Candidate) -> bool
    requires { Kept s.old }
    ensures { Answered s.old s.new result (λ m t. machine.request_parent m (candidate_of c) t) }
{
    let Some(key) = ident::key_of(c.item) else {
        return false;
    };
    parent::request_parent_at(s, key, c)
}

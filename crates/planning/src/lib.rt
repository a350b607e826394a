// plan on the bytes of a sound store (document 01, "plan").
#![tactic(auto, using(requests::proofs::Keeping::kept_shown, sweeping::proofs::Lent::kept_head))]

pub mod expiring;
pub mod noted;
pub mod plan;
pub mod replying;

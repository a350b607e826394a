// What is proved over all public calls (crates public_requests, public_packages, public_plans, public_listings): demands 2 and 3 of every list of them, on one store,
// and that a call replies a refusal just where the machine refuses it (proofs/Replies). It has no code; specs/Tracked says what a list of calls leaves and what the machine says of
// it, specs/Made which calls the code can make.

#![tactic(auto)]

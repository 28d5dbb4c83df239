//! What scalars and queries mean, as definitions that no code shares. All of it is in `specs/` and
//! `proofs/`.
#![tactic(auto)]

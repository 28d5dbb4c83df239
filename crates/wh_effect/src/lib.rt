//! What a changing statement does to its target's rows, as definitions that no code shares. All of
//! it is in `specs/` and `proofs/`.
#![tactic(auto)]

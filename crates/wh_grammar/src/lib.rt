//! The grammar, as a relation between texts and statements. All of it is in `specs/` and `proofs/`.
#![tactic(auto)]

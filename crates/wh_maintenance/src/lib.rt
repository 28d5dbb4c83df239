//! How changes of sources are carried through queries, as definitions and laws. All of it is in
//! `specs/` and `proofs/`.
#![tactic(auto)]

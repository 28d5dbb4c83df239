//! The graphs of tasks: what a run of one takes and does, and what a tick carries out. All of it is
//! in `specs/` and `proofs/`.
#![tactic(auto)]

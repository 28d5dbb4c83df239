//! Net changes of a table's rows, and what a stream shows of them. All of it is in `specs/` and
//! `proofs/`.
#![tactic(auto)]

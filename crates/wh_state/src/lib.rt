//! The state of a warehouse and what its file says: tables as lists of whole versions, the acts of
//! commits, their bytes, and the state that a file stands for. All is in `specs/` and `proofs/`.
#![tactic(auto)]

//! The moments that dynamic tables stand for: what they read, when they are due, and to which
//! moment they are brought. All of it is in `specs/` and `proofs/`.
#![tactic(auto)]

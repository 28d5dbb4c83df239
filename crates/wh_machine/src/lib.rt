//! The machine that answers events: sessions and their transactions, what each statement does, and
//! what a stop leaves. All of it is in `specs/` and `proofs/`.
#![tactic(auto)]

//! What names and types of a statement stand for, as definitions that no code shares: they are in
//! `specs/` and `proofs/`. And the types in which a binder is told the objects that a statement may
//! name, and tells the first failing test.
#![tactic(auto)]

mod failing;
mod object;

pub use failing::Failing;
pub use object::{Named, ObjectKind};

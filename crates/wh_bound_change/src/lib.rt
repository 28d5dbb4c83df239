//! What INSERT, UPDATE, DELETE and MERGE stand for, bound to numbered columns and sources.
#![tactic(auto)]

mod change;

pub use change::{BoundChange, BoundClause, Modification};

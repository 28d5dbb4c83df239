//! Statements that change rows, among tokens.
#![tactic(auto)]

mod changing;
mod clauses;
mod lists;
mod statements;

pub use statements::{dml, names, reading_laws};

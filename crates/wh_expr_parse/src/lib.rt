//! Expressions among tokens.
#![tactic(auto)]

mod grammar;
mod levels;
mod literal;
mod operators;
mod predicates;
mod primaries;
mod reading;
mod tokens;

pub use reading::{expr, exprs, reading_laws};

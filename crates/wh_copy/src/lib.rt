//! Copies of statements and their parts, each with memory of its own.
#![tactic(auto)]

mod dml;
mod expr;
mod parts;
mod query;
mod statement;

pub use dml::copy_dml;
pub use expr::copy_expr;
pub use query::copy_query;
pub use statement::{copy_condition, copy_statement};

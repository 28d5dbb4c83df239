//! Statements, and which texts spell them.
#![tactic(auto)]

mod columns;
mod kept;
mod options;
mod parsing;
mod plain;
mod sorts;
mod verb;

pub use parsing::{parse, reading_laws};
pub use wh_cursor::ParseFault;

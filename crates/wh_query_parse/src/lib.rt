//! Queries among tokens.
#![tactic(auto)]

mod follow;
mod grammar;
mod items;
mod parts;
mod queries;

pub use queries::{alias, filter, query, reading_laws, source};

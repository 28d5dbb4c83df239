//! Cores bound over their FROM entries: items, WHERE and GROUP BY.
#![tactic(auto)]

mod bound;
mod filters;
mod group;
mod items;
mod keys;
mod output;
mod parts;
mod shown;

pub use bound::bound_core;
pub use filters::condition;
pub use output::Output;
pub use parts::{BoundCondition, BoundQuery, Joined};
pub use shown::column_scalar;

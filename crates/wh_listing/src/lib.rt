//! Rows in the order that a query asks for.
#![tactic(auto)]

mod key;
mod listing;

pub use key::{SortKey, compare_rows};
pub use listing::listed;

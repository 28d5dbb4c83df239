//! Dynamic tables, what they read, and when they are due.
#![tactic(auto)]

mod due;
mod dynamic;
mod kept;
mod period;
mod query;
mod reached;
mod reads;
mod state;
mod watched;

pub use due::due_table;
pub use dynamic::Dynamic;
pub use kept::{GroupsChange, Kept};
pub use query::{DynamicQuery, NamedSource};
pub use reached::{brought, upstream, upstream_of_new, watched_at};
pub use reads::ids_read;
pub use state::DynamicState;
pub use watched::Watched;

//! Statements bound to the objects that they name: ids in place of names, with their queries and
//! changes bound.
#![tactic(auto)]

mod binding;
mod bound;
mod columns;
mod dynamic_tables;
mod names;
mod objects;
mod streams;
mod tables;
mod tasks;
mod tested;

pub use binding::bind;
pub use bound::{Bound, NewDynamicTable, NewStream, NewTable, NewTask};
pub use names::{Names, TaskRoot};

//! Options of tasks and dynamic tables, their texts, and the conditions of tasks.
#![tactic(auto)]

mod bytes;
mod calls;
mod gathering;
mod lags;
mod levels;
mod names;
mod span;
mod table;
mod task;

pub use calls::{asked, condition, lag, reading_laws, table_options, task_options};
pub use table::TableOptions;

//! Tasks, and the runs of their graphs: what a run takes, what the end of a task does to it, and
//! what a tick carries out.
#![tactic(auto)]

mod action;
mod begins;
mod ends;
mod run;
mod state;
mod task;

pub use action::{Action, next_action};
pub use begins::kept_tasks;
pub use ends::skipped_behind;
pub use run::{Ending, TaskRun, has_failed, is_under_way};
pub use state::TaskState;
pub use task::{Task, TaskBody};

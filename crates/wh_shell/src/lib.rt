//! The program's statuses, and `run`: what its words ask for, carried out over a file.
#![tactic(auto)]

mod fault;
mod laws;
mod reader;
mod running;
mod serving;
mod status;
mod terms;
mod timing;
mod writing;

pub use fault::Fault;
pub use laws::{script_fixes_events, workers_change_no_answer};
pub use running::{run, run_within};
pub use status::Status;
pub use terms::Terms;

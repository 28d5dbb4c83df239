//! The lines of a script, and the text of replies.
#![tactic(auto)]

mod ahead;
mod area;
mod fault;
mod line;
mod lines;
mod marked;
mod place;
mod print;
mod print_refresh;
mod print_task;
mod script;

pub use fault::ScriptFault;
pub use line::Line;
pub use print::print_reply;
pub use script::Script;

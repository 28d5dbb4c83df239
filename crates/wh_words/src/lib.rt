//! The words behind a path: which task they ask for, if they are in the grammar.
#![tactic(auto)]

mod command;
mod number;
mod reading;
mod task;

pub use reading::read_words;
pub use task::{Misread, Task};

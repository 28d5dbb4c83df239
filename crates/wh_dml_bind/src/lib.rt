//! INSERT, UPDATE, DELETE and MERGE bound to the objects that they name: what becomes of the
//! target's rows, and what is found wrong.
#![tactic(auto)]

mod assignments;
mod binding;
mod checked;
mod clauses;
mod filters;
mod findings;
mod insert;
mod merge;
mod places;
mod rows;
mod target;
mod update;
mod values;

pub use binding::{bind_change, change_reach};

//! Changes of a query's rows, worked out from changes of its sources.
#![tactic(auto)]

mod at_hand;
mod carrying;
mod change;
mod group;
mod join;
mod kept;
mod linear;
mod moved;
mod moves;
mod plans;
mod reading;
mod staying;

pub use change::{delta, linear_delta};
pub use kept::{KeptChange, kept_delta, kept_delta_between};
pub use moved::only_in;

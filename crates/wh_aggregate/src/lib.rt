//! Group: the rows of each key, and the calls over them.
#![tactic(auto)]

mod groups;
mod tallies;
mod tally;
mod values;

pub use groups::Groups;
pub use values::values_on;

//! Kept groups: what a Group's calls have added up, moved by the rows that come and go.
#![tactic(auto)]

mod grouping;
mod groups;
mod moved;
mod moving;
mod settling;
mod showing;
mod standing;
mod tally;
mod touched;
mod updating;
#[cfg(test)]
mod worked;

pub use grouping::{Grouping, grouping_of, is_linear};
pub use groups::{Before, Entry, Groups};
pub use settling::Updated;
pub use standing::{Standing, Total, Totals};
pub use updating::updated;

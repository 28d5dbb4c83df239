//! Items of a core with GROUP BY: scalars over the rows of groups.
#![tactic(auto)]

mod comparing;
mod grouped;
mod keys;
mod laws;

pub use comparing::is_same;
pub use grouped::regrouped;
pub use laws::same_scalars_are_equal;

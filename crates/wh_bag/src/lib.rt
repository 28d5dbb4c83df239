//! Bags of rows: counts, what one bag has more than another, and changes.
#![tactic(auto)]

mod bag;
mod change;
mod fault;
mod times;

pub use bag::Bag;
pub use change::{Signed, apply, net};
pub use fault::{AddFault, ApplyFault};
pub use times::Times;

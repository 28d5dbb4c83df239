//! The changes of a table's rows between two times, by row number: those that a stream shows. What
//! is read of the rows is loaded first, and kept by the caller.
#![tactic(auto, unfolding(wh_table::specs::Table::kept_table))]

mod appending;
mod arrived;
mod arriving;
mod meeting;
mod net;
mod row_change;
mod rows;
mod seen;
mod turning;

pub use appending::appends;
pub use arrived::Appended;
pub use arriving::appended;
pub use net::net_changes;
pub use row_change::{RowAction, RowChange};
pub use turning::{TurnedOver, turned_over};

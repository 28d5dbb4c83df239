//! What is answered to an event, and how it is printed, as a definition.
#![tactic(auto)]

mod reply;

pub use reply::{Aftermath, GraphEnd, RefreshAction, Refreshed, Refusal, Reply, RowCounts};

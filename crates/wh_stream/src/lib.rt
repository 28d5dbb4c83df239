//! What a read of a stream shows, and when its offset lies too far back to be read.
#![tactic(auto, unfolding(wh_catalog::specs::Catalog::state_of))]

mod changes;
mod loaded;
mod reading;
mod rows;
mod staleness;
mod texts;

pub use reading::{has_data, is_gone, show, stale};
pub use staleness::Stale;

//! The open transactions of the sessions: what is staged, held and seen, and the commit that it
//! comes to.
#![tactic(auto, unfolding(crate::specs::View::sessions_of))]

mod fault;
mod ids;
mod lone;
mod offsets;
mod recording;
mod seeing;
mod sessions;
mod staging;
mod standing;
mod touching;
mod transaction;

pub use fault::RecordFault;
pub use lone::lone_commit;
pub use seeing::TableSeen;
pub use sessions::Sessions;
pub use standing::TableAt;

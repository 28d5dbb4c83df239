//! The versions of a table by copy on write: a partition stands once, whatever versions have it.
#![tactic(auto, unfolding(crate::specs::History::versions_of, crate::specs::History::nexts_of))]

mod amending;
mod arrivals;
mod editing;
mod edits;
mod history;
mod lasting;
mod mark;
mod merging;
mod moments;
mod popping;
mod pushing;
mod rewriting;
mod row_edit;
mod row_edits;
mod searching;
mod sorting;
mod times;
mod touching;
mod turnover;
mod version;

pub use arrivals::{Arrivals, Leading};
pub use edits::Edits;
pub use history::History;
pub use lasting::Lasting;
pub use mark::VersionMark;
pub use rewriting::Rewritten;
pub use turnover::Turnover;
pub use version::Version;

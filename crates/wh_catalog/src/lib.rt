//! The catalog: objects in order of creation, and the commits that change them.
#![tactic(auto, unfolding(wh_table::specs::Table::kept_table, crate::specs::Catalog::kept_of, crate::specs::Catalog::stored_of, crate::specs::Catalog::state_of, wh_state::specs::Commit::changed))]

mod binding;
mod carrying;
mod catalog;
mod consuming;
mod creating;
mod dropping;
mod dynamics;
mod grouping;
mod naming;
mod object;
mod pushing;
mod running;
mod stage;
mod stream;
mod streaming;
mod tasks;
mod undo;

pub use binding::named_as;
pub use catalog::{Catalog, watched_object};
pub use object::{StoredKind, StoredObject};
pub use stream::StoredStream;
pub use undo::Undo;
pub use wh_table::{StageFault, StoredTable};

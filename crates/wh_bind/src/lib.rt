//! A SELECT bound to the objects that it names: its query over numbered sources, and what is found
//! wrong with it.
#![tactic(auto)]

mod binding;
mod cores;
mod fault;
mod joins;
mod keys;
mod merging;
mod select;
mod sources;
mod unions;

pub use binding::{bind_query, bind_source};
pub use fault::BindFault;
pub use joins::source_name;
pub use merging::columns_of;
pub use select::{BoundSelect, bind_select};
pub use sources::{BoundSource, copied_columns, find};

//! A table with all its versions: its columns and rows, and versions pushed and taken back.
#![tactic(auto, unfolding(crate::specs::Table::kept_table))]

mod by_number;
mod changes;
mod comparing;
mod editing;
mod fault;
mod fitting;
mod gathering;
mod loading;
mod moments;
mod numbers;
mod pushing;
mod ranged;
mod rewriting;
mod standing;
mod table;

pub use by_number::by_rows;
pub use editing::EditedTable;
pub use fault::StageFault;
pub use table::StoredTable;

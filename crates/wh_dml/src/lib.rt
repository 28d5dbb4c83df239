//! What a bound changing statement does to the rows of its target: the rows that go, those that
//! are changed, and those that are added.
#![tactic(auto)]

mod changing;
mod clauses;
mod columns;
mod delete;
mod fault;
mod indexing;
mod insert;
mod leaving;
mod merge;
mod met;
mod pairs;
mod pieces;
mod settled;
mod target;
mod turn;
mod update;

pub use changing::effect;
pub use fault::EffectFault;
pub use leaving::leaves;
pub use target::Effect;

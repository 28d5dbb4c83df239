//! What a command comes to, over the catalog and the open transactions. Nothing is changed yet.
#![tactic(auto)]

mod altering;
mod changes;
mod deciding;
mod decision;
mod definitions;
mod dynamic_states;
mod dynamic_tables;
mod effects;
mod event;
mod graphs;
mod lags;
mod limits;
mod names;
mod queries;
mod reading;
mod roots;
mod settling;
mod sight;
mod sources;
mod streams;
mod tables;
mod tasks;
mod transactions;

pub use changes::change_rows;
pub use deciding::decide_command;
pub use decision::{Decision, Settlement};
pub use dynamic_states::scheduled_refresh;
pub use event::Event;
pub use names::{named, refusal};
pub use reading::{name_of, reading_refusal, streams_among};
pub use sight::Sight;

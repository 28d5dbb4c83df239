//! Bound queries: trees of the six operators over numbered sources, plans that carry them out, and
//! the rows that operators take and give.
#![tactic(auto)]

mod copying;
mod increments;
mod physical;
mod query;
mod tuple;

pub use copying::{copy_calls, copy_scalars};
pub use increments::incrementable;
pub use physical::{Operator, Physical};
pub use query::{Call, Query};
pub use tuple::Tuple;

//! Expressions bound to the columns that their names stand for, and what is found wrong in them.
#![tactic(auto)]

mod calls;
mod columns;
mod context;
mod count;
mod entries;
mod expression;
mod findings;
mod forms;
mod parts;
mod ranges;
mod scalars;
mod types;

pub use columns::{Place, column_at};
pub use entries::{Entry, Span, columns_of_entry, width};
pub use expression::typed;
pub use findings::Findings;
pub use parts::Typed;
pub use types::{alike, value_type};
pub use wh_naming::{Failing, Named, ObjectKind};

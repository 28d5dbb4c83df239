//! Evaluation: the rows of a query over the rows of its sources.
#![tactic(auto)]

mod codes;
mod collecting;
mod columns;
mod defined;
mod each;
mod feeding;
mod filter;
mod grouping;
mod join;
mod key_index;
mod keys;
mod pairing;
mod pouring;
mod project;
mod right_index;
mod running;
mod scan;
mod sink;
mod source;
mod step;
mod tuples;
mod widths;

pub use collecting::collected;
pub use columns::are_columns;
pub use right_index::RightIndex;
pub use running::run;
pub use source::{Loaded, Parts, Source};

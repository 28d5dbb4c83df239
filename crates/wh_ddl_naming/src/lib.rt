//! What statements about objects stand for, and the names that a statement writes. The meanings
//! are definitions that no code shares, in `specs/`.
#![tactic(auto)]

mod names;

pub use names::{names_in, names_in_query};

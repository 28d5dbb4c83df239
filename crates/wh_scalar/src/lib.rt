//! Scalars: expressions over a row, bound to its columns, and their value.
#![tactic(auto)]

mod arithmetic;
mod at_hand;
mod condition;
mod copying;
mod eval;
mod fault;
mod holds;
mod scalar;
mod truth;

pub use condition::Condition;
pub use fault::EvalFault;
pub use scalar::Scalar;

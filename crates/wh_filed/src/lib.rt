//! Partitions whose rows stand in the file.
#![tactic(auto)]

mod filed;
mod filing;
mod loading;

pub use filed::FiledPartition;
pub use filing::filed_from;
pub use loading::{fetch_all, fetch_one, load};

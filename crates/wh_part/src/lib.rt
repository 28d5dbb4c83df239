//! Partitions: some of a table's rows by their numbers, and the bytes that a file has of them.
#![tactic(auto)]

mod contents;
mod cutting;
mod decoding;
mod encoding;
mod extent;
mod extents;
mod fault;
mod holding;
mod meta;
mod outline;
mod partition;
mod reading;
mod seen;
mod size;
mod skimming;
mod writing;

pub use contents::Contents;
pub use cutting::cut;
pub use decoding::{read_value, spelling_fixes_partitions};
pub use encoding::write_values;
pub use fault::ReadError;
pub use meta::{Bounds, PartId, PartMeta};
pub use outline::Outline;
pub use partition::{NumberedRow, Partition};
pub use reading::{read_byte, read_text, read_u32, read_u64};
pub use writing::{write_text, write_u32, write_u64};

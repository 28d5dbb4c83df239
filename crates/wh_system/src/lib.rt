//! The world of the system: a script from a reader, replies to a writer, the system's clock, and a
//! file as a disk.
#![tactic(auto)]

mod file_disk;
mod in_source;
mod out_sink;
mod system_clock;
mod tries;

pub use file_disk::{FileDisk, OpenError};
pub use in_source::InSource;
pub use out_sink::OutSink;
pub use system_clock::SystemClock;

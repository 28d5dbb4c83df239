//! The world outside: where a script comes from, where replies go, the clock, and the disk.
#![tactic(auto)]

mod calls;
mod clock;
mod disk;
mod framed;
mod imaging;
mod logged;
mod mem_disk;
mod mem_sink;
mod mem_source;
mod set_clock;
mod sink;
mod source;

pub use clock::Clock;
pub use disk::Disk;
pub use framed::Framed;
pub use mem_disk::MemDisk;
pub use mem_sink::MemSink;
pub use mem_source::MemSource;
pub use set_clock::SetClock;
pub use sink::Sink;
pub use source::{Failed, Source};

//! Partitions by what is known of them: where their rows come from.
#![tactic(auto)]

mod disk_fetch;
mod fault;
mod fetch;
mod kept;
mod mem_fetch;
mod overlay;
mod place;
mod taking;

pub use disk_fetch::DiskFetch;
pub use fault::FetchFault;
pub use fetch::Fetch;
pub use kept::stays_beside;
pub use mem_fetch::MemFetch;
pub use overlay::Overlay;

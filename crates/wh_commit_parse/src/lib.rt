//! Commits whose texts are read.
#![tactic(auto)]

mod decoding;
mod laws;
mod meaning;

pub use decoding::decode_commit;
pub use laws::{spelling_fixes_commits, spelling_fixes_faults};

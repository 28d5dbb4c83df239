//! Commits, and the bytes that a file has of them.
#![tactic(auto)]

mod commit;
mod decoding;
mod dynamic_decoding;
mod dynamic_encoding;
mod encoding;
mod format;
mod groups_decoding;
mod groups_encoding;
mod groups_size;
mod outlining;
mod size;
mod task_decoding;
mod task_encoding;

pub use commit::{
    Change, ChangeIn, Commit, CommitIn, DynamicChange, DynamicChangeIn, DynamicTexts,
    OutlinedChange, OutlinedCommit, OutlinedVersion, StreamChange, TableChange, TaskChange,
    TaskChangeIn, TaskTexts, TextChange, TextCommit, VersionChange, VersionChangeIn,
};
pub use decoding::spelling_fixes_commits;
pub use size::partitions_stand_in_payload;

use wh_dynamic::{DynamicQuery, DynamicState, GroupsChange, NamedSource};
use wh_part::{Outline, Partition};
use wh_task::{Ending, TaskBody, TaskState};
use wh_value::{Column, Text};

/// The byte before a new table.
pub(crate) const TABLE_TAG: u8 = 1;

/// The byte before the id of an object that is dropped.
pub(crate) const DROP_TAG: u8 = 2;

/// The byte before a new stream.
pub(crate) const STREAM_TAG: u8 = 3;

/// The byte before a new task.
pub(crate) const TASK_TAG: u8 = 4;

/// The byte before the state of a task.
pub(crate) const STATE_TAG: u8 = 5;

/// The byte before a run that begins.
pub(crate) const RUN_TAG: u8 = 6;

/// The byte before the end of a task in a run.
pub(crate) const END_TAG: u8 = 7;

/// The byte before a new dynamic table.
pub(crate) const DYNAMIC_TAG: u8 = 8;

/// The byte before the state of a dynamic table.
pub(crate) const DYNAMIC_STATE_TAG: u8 = 9;

/// The byte before a new version.
pub(crate) const VERSION_TAG: u8 = 10;

/// The byte before a new offset of a stream.
pub(crate) const OFFSET_TAG: u8 = 11;

/// The byte before what a version does to groups.
pub(crate) const GROUPS_TAG: u8 = 12;

/// A new table; `retention` is in days.
#[derive(Debug, Drop)]
pub struct TableChange {
    pub id: u32,
    pub name: Text,
    pub retention: u8,
    pub columns: Vec<Column>,
}

/// A new version of a table: partitions of its last one, by their rising numbers, are removed, and
/// others are added. `width` is the table's number of columns. What is added is told by its rows,
/// or without them.
#[derive(Debug, Drop)]
pub struct VersionChangeIn<P> {
    pub id: u32,
    pub data_timestamp: u64,
    pub next_row: u64,
    pub width: u32,
    pub removed: Vec<u64>,
    pub added: Vec<P>,
}

/// A new stream on the table `source`: what is committed there after `offset` is not yet consumed.
#[derive(Debug, Drop)]
pub struct StreamChange {
    pub id: u32,
    pub name: Text,
    pub source: u32,
    pub is_append_only: bool,
    pub offset: u64,
}

/// The texts of a task's condition and body. An empty one stands for no condition.
#[derive(Debug, Drop)]
pub struct TaskTexts {
    pub when: Text,
    pub body: Text,
}

/// A new task behind those of some ids. What it runs is told by its texts, as bytes tell it, or
/// with what they mean.
#[derive(Debug, Drop)]
pub struct TaskChangeIn<R> {
    pub id: u32,
    pub name: Text,
    pub minutes: u32,
    pub after: Vec<u32>,
    pub runs: R,
}

/// The text of a dynamic table's query, and an object for each name in FROM, in the order of the
/// text.
#[derive(Debug, Drop)]
pub struct DynamicTexts {
    pub text: Text,
    pub sources: Vec<NamedSource>,
}

/// A new dynamic table; `lag` is in seconds, 0 for DOWNSTREAM. Its query is told by its text, as
/// bytes tell it, or with what that means.
#[derive(Debug, Drop)]
pub struct DynamicChangeIn<Q> {
    pub id: u32,
    pub name: Text,
    pub lag: u32,
    pub is_incremental: bool,
    pub query: Q,
    pub columns: Vec<Column>,
}

/// One of the things that a commit changes.
#[derive(Debug, Drop)]
pub enum ChangeIn<R, Q, P> {
    CreatesTable(TableChange),
    /// The object of that id is dropped.
    Drops(u32),
    PushesVersion(VersionChangeIn<P>),
    CreatesStream(StreamChange),
    /// The stream of that id is consumed up to that stamp.
    SetsOffset {
        id: u32,
        offset: u64,
    },
    CreatesTask(TaskChangeIn<R>),
    /// The task of that id has another state.
    SetsTask {
        id: u32,
        state: TaskState,
    },
    /// A run of the root of that id begins, with these tasks by rising ids.
    StartsRun {
        root: u32,
        tasks: Vec<u32>,
    },
    /// A task of the run of the root of that id ended.
    FinishesTask {
        root: u32,
        task: u32,
        ending: Ending,
    },
    CreatesDynamic(DynamicChangeIn<Q>),
    /// The dynamic table of that id has another state.
    SetsDynamic {
        id: u32,
        state: DynamicState,
    },
    /// Groups of the dynamic table of that id are set.
    SetsGroups {
        id: u32,
        groups: GroupsChange,
    },
}

/// Changes, and the stamp at which they are made. There may be none.
#[derive(Debug, Drop)]
pub struct CommitIn<R, Q, P> {
    pub stamp: u64,
    pub changes: Vec<ChangeIn<R, Q, P>>,
}

/// What its bytes give of a commit: texts, and no rows.
pub type TextCommit = CommitIn<TaskTexts, DynamicTexts, Outline>;

pub type TextChange = ChangeIn<TaskTexts, DynamicTexts, Outline>;

/// A commit with what its texts mean, and with the rows that it adds.
pub type Commit = CommitIn<TaskBody, DynamicQuery, Partition>;

pub type Change = ChangeIn<TaskBody, DynamicQuery, Partition>;

pub type VersionChange = VersionChangeIn<Partition>;

/// A commit with what its texts mean, whose rows stand in the file alone.
pub type OutlinedCommit = CommitIn<TaskBody, DynamicQuery, Outline>;

pub type OutlinedChange = ChangeIn<TaskBody, DynamicQuery, Outline>;

pub type OutlinedVersion = VersionChangeIn<Outline>;

pub type TaskChange = TaskChangeIn<TaskBody>;

pub type DynamicChange = DynamicChangeIn<DynamicQuery>;

use wh_value::{Limit, Row, Text};

/// Why a command is refused. docs/replies.md has the exact cause of each.
#[derive(Debug, Drop)]
pub enum Refusal {
    /// The text spells no statement.
    SyntaxError,
    /// No session has the number.
    NoSuchSession(u64),
    /// The session's transaction of that number is open, in which no object is made or dropped.
    DdlInTransaction(u64),
    /// The session's transaction of that number is still open.
    TransactionOpen(u64),
    /// The session has no open transaction.
    NoTransaction,
    /// No object, or no one column, has the name.
    UnknownName(Text),
    /// The name is another's, or stands twice.
    NameTaken(Text),
    /// The object of that name is of a kind that its place doesn't take.
    WrongKind(Text),
    /// An expression isn't typed, or a value doesn't fit its column.
    TypeMismatch,
    /// Changes can't be carried through the query of an incremental table.
    NotIncrementable,
    /// The lag of a dynamic table would be below that of one upstream: their names.
    LagTooShort {
        table: Text,
        upstream: Text,
    },
    /// The root of that name has a run under way.
    RootRunning(Text),
    /// The root of that name is resumed.
    RootNotSuspended(Text),
    /// The task of that name follows the one that would be dropped.
    HasChildren(Text),
    /// A count would pass a limit.
    OverLimit(Limit),
    /// The dynamic table of that name has no rows yet.
    NotInitialized(Text),
    /// A source of the stream or dynamic table of that name was dropped or replaced.
    SourceGone(Text),
    /// The stream's offset lies too far back.
    StaleStream {
        offset: u64,
        /// The last stamp at which it could be read.
        last_read: u64,
    },
    /// The dynamic table of that name is suspended.
    IsSuspended(Text),
    /// The transaction of that number, of another session, holds what would be changed.
    Locked(u64),
    /// A number of an evaluation has more than 18 digits.
    NumberOutOfRange,
    /// Several source rows of a MERGE would change this row of the target.
    AmbiguousMerge(Row),
}

/// How many rows a statement changed.
#[derive(Clone, Copy, Debug)]
pub enum RowCounts {
    /// The number of inserted rows.
    Inserted(u64),
    /// The number of rows that an UPDATE selected.
    Updated(u64),
    /// The number of deleted rows.
    Deleted(u64),
    /// The numbers of inserted, updated and deleted rows of a MERGE.
    Merged {
        inserted: u64,
        updated: u64,
        deleted: u64,
    },
}

/// How a run of a graph of tasks ended.
#[derive(Debug, Drop)]
pub struct GraphEnd {
    /// The name of the graph's root.
    pub root: Text,
    pub has_failed: bool,
    /// Whether it was the tenth run that failed in a row, which suspends the root.
    pub is_suspended: bool,
}

/// What else the end of a task does.
#[derive(Debug, Drop)]
pub struct Aftermath {
    /// The names of the descendants that become SKIPPED.
    pub skipped: Vec<Text>,
    /// The end of the run, where it ended.
    pub graph: Option<GraphEnd>,
}

/// How a dynamic table was brought to a moment.
#[derive(Clone, Copy, Debug, PartialEq, Eq)]
pub enum RefreshAction {
    /// No source had changed.
    NoData,
    /// Its query was evaluated.
    Full,
    /// The changes of its sources were carried through its query.
    Incremental,
}

/// A dynamic table that was brought to a moment, with the numbers of rows that came and went.
#[derive(Debug, Drop)]
pub struct Refreshed {
    pub name: Text,
    pub moment: u64,
    pub action: RefreshAction,
    pub plus: u64,
    pub minus: u64,
}

/// The answer to an event.
#[derive(Debug, Drop)]
pub enum Reply {
    /// The dynamic table's name, and what was refreshed for it.
    CreatedDynamicTable {
        name: Text,
        refreshed: Vec<Refreshed>,
    },
    /// The dynamic table's name.
    DroppedDynamicTable(Text),
    /// The dynamic table's name.
    Altered(Text),
    /// The dynamic tables that were brought to a moment.
    RefreshedTables(Vec<Refreshed>),
    /// A scheduled refresh of the dynamic table of that name failed: why, and whether that
    /// suspended it.
    RefreshFailed {
        name: Text,
        target: u64,
        why: Refusal,
        is_suspended: bool,
    },
    /// The table's name.
    CreatedTable(Text),
    /// The table's name.
    DroppedTable(Text),
    /// The stream's name.
    CreatedStream(Text),
    /// The stream's name.
    DroppedStream(Text),
    /// The task's name.
    CreatedTask(Text),
    /// The task's name.
    DroppedTask(Text),
    /// The task's name.
    Resumed(Text),
    /// The task's name.
    Suspended(Text),
    /// A run of the graph of the root of that name is under way.
    Started(Text),
    /// The task of that name succeeded, and its statement changed so many rows.
    TaskSucceeded {
        name: Text,
        counts: RowCounts,
        aftermath: Aftermath,
    },
    /// The task of that name was skipped.
    TaskSkipped {
        name: Text,
        aftermath: Aftermath,
    },
    /// The task of that name failed: why.
    TaskFailed {
        name: Text,
        why: Refusal,
        aftermath: Aftermath,
    },
    /// Whether the stream has rows to show.
    HasData(bool),
    /// A statement changed so many rows.
    Changed(RowCounts),
    /// The number of the transaction.
    Begun(u64),
    /// The stamp of the transaction's commit.
    Committed(u64),
    /// The transaction ended, and had touched nothing.
    CommittedNothing,
    RolledBack,
    /// Rows in order, below the names of their columns.
    Listing {
        names: Vec<Text>,
        rows: Vec<Row>,
    },
    /// Nothing was due.
    Idle,
    Refused(Refusal),
}

use sqlite_items::Boxed;
use wh_algebra::Query;
use wh_ast::{Dml, Initialize, Lag, RefreshMode, When};
use wh_bind::BoundSelect;
use wh_bound_change::BoundChange;
use wh_value::{Column, Text};

/// A statement with ids in place of objects' names, and with its queries and changes bound.
#[derive(Debug, Drop)]
pub enum Bound {
    Select(Boxed<BoundSelect>),
    /// The stream.
    HasData(u32),
    Change(Boxed<BoundChange>),
    CreateTable(Boxed<NewTable>),
    CreateStream(Boxed<NewStream>),
    CreateTask(Boxed<NewTask>),
    ResumeTask(u32),
    SuspendTask(u32),
    /// The root of the graph that is started.
    ExecuteTask(u32),
    CreateDynamicTable(Boxed<NewDynamicTable>),
    ResumeDynamicTable(u32),
    SuspendDynamicTable(u32),
    RefreshDynamicTable(u32),
    SetTargetLag(u32, Lag),
    DropTable(u32),
    DropStream(u32),
    DropTask(u32),
    DropDynamicTable(u32),
    Begin,
    Commit,
    Rollback,
}

/// A table to be made.
#[derive(Debug, Drop)]
pub struct NewTable {
    pub name: Text,
    /// The id of the table whose place it takes, where OR REPLACE finds one.
    pub replaced: Option<u32>,
    pub columns: Vec<Column>,
    /// In days, if it is written.
    pub retention: Option<u64>,
}

/// A stream to be made.
#[derive(Debug, Drop)]
pub struct NewStream {
    pub name: Text,
    /// The id of its table.
    pub table: u32,
    pub is_append_only: bool,
}

/// A task to be made. Its WHEN and its body are bound when it runs.
#[derive(Debug, Drop)]
pub struct NewTask {
    pub name: Text,
    /// SCHEDULE in minutes, if it is written.
    pub minutes: Option<u64>,
    /// The ids of its predecessors, as often as they are written.
    pub after: Vec<u32>,
    pub when: Option<Boxed<When>>,
    pub body: Boxed<Dml>,
    /// The body as it was written.
    pub body_text: Text,
}

/// A dynamic table to be made.
#[derive(Debug, Drop)]
pub struct NewDynamicTable {
    pub name: Text,
    pub lag: Lag,
    pub mode: RefreshMode,
    pub initialize: Initialize,
    /// The query as a tree.
    pub tree: Boxed<wh_ast::Query>,
    pub query: Query,
    /// The columns of its query.
    pub columns: Vec<Column>,
    /// The ids of the sources, by their numbers.
    pub sources: Vec<u32>,
    /// Whether its query, or one in it, has more columns than the limit.
    pub is_wide: bool,
    /// The query as it was written.
    pub query_text: Text,
}

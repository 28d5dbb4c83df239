use crate::{Dml, Query, Sort};
use sqlite_items::{Boxed, Items};
use wh_value::{Column, Text};

/// A statement: a variant for each line of the grammar.
#[derive(Debug, Drop)]
pub enum Statement {
    Select(Query, Items<Sort>),
    /// `SELECT SYSTEM$STREAM_HAS_DATA('name')`
    HasData(Text),
    Dml(Dml),
    CreateTable(CreateTable),
    /// The stream, its table, and whether it is append-only.
    CreateStream(Text, Text, bool),
    CreateTask(CreateTask),
    ResumeTask(Text),
    SuspendTask(Text),
    ExecuteTask(Text),
    CreateDynamicTable(CreateDynamicTable),
    ResumeDynamicTable(Text),
    SuspendDynamicTable(Text),
    RefreshDynamicTable(Text),
    SetTargetLag(Text, Lag),
    DropTable(Text),
    DropStream(Text),
    DropTask(Text),
    DropDynamicTable(Text),
    Begin,
    Commit,
    Rollback,
}

#[derive(Debug, Drop)]
pub struct CreateTable {
    pub replace: bool,
    pub name: Text,
    pub columns: Items<Column>,
    /// In days, if it is written.
    pub retention: Option<u64>,
}

#[derive(Debug, Drop)]
pub struct CreateTask {
    pub name: Text,
    /// SCHEDULE in minutes, if it is written.
    pub minutes: Option<u64>,
    pub after: Items<Text>,
    pub when: Option<When>,
    pub body: Dml,
    /// The body as it was written.
    pub body_text: Text,
}

/// A condition, and its text as it was written.
#[derive(Debug, Drop)]
pub struct When {
    pub condition: WhenCondition,
    pub text: Text,
}

#[cycle(condition)]
#[derive(Debug, Drop)]
pub enum WhenCondition {
    Or(Boxed<WhenCondition>, Boxed<WhenCondition>),
    And(Boxed<WhenCondition>, Boxed<WhenCondition>),
    Not(Boxed<WhenCondition>),
    /// Whether a stream has data, by its name.
    HasData(Text),
}

#[derive(Debug, Drop)]
pub struct CreateDynamicTable {
    pub name: Text,
    pub lag: Lag,
    pub mode: RefreshMode,
    pub initialize: Initialize,
    pub query: Query,
    /// The query as it was written.
    pub query_text: Text,
}

#[derive(Clone, Copy, Debug, PartialEq, Eq)]
pub enum Lag {
    Downstream,
    Seconds(u64),
}

#[derive(Clone, Copy, Debug, PartialEq, Eq)]
pub enum RefreshMode {
    Auto,
    Full,
    Incremental,
}

#[derive(Clone, Copy, Debug, PartialEq, Eq)]
pub enum Initialize {
    OnCreate,
    OnSchedule,
}

ghost use Rattle.std.specs.Prelude.{◌≡◌};
ghost use Rattle.wh_value.specs.Limit.{bound};

/// There are sessions 1 to 64.
pub const SESSIONS: u64 = 64;

/// The changes of a table are kept for so many days at least, whatever its retention.
pub const DAYS_OF_CHANGES: u8 = 14;

/// A limit of the language. The limits and what they count stand in docs/replies.md.
#[derive(Clone, Copy, Debug, PartialEq, Eq)]
pub enum Limit {
    /// The bytes of a statement's text.
    Statement,
    /// Every stamp is below it.
    Stamp,
    /// A table's next row number.
    RowNumber,
    /// A table's next partition number.
    PartitionNumber,
    /// The ids of objects.
    ObjectIds,
    /// The objects that live.
    Objects,
    /// The bytes of a name.
    Name,
    /// The columns of a table.
    Columns,
    /// The columns of a query.
    Output,
    /// The live tasks of a graph.
    GraphTasks,
    /// The names behind AFTER.
    Predecessors,
    /// The live tasks that follow one.
    Children,
    /// The minutes of a schedule, which aren't below it.
    LeastSchedule,
    /// The minutes of a schedule.
    MostSchedule,
    /// The seconds of a target lag, which aren't below it.
    LeastTargetLag,
    /// The seconds of a target lag.
    MostTargetLag,
    /// The days of a retention.
    Retention,
}

impl Limit {
    /// The number that isn't passed, or that a count isn't below.
    pub fn bound(self) -> u64
        ensures { result ≡ bound self }
    {
        match self {
            Limit::Statement => 65536,
            Limit::Stamp | Limit::RowNumber | Limit::PartitionNumber => 1 << 62,
            Limit::ObjectIds => 4294967295,
            Limit::Objects => 1000,
            Limit::Name => 255,
            Limit::Columns => 64,
            Limit::Output => 256,
            Limit::GraphTasks => 1000,
            Limit::Predecessors | Limit::Children => 100,
            Limit::LeastSchedule => 1,
            Limit::MostSchedule => 11520,
            Limit::LeastTargetLag => 60,
            Limit::MostTargetLag => 604800,
            Limit::Retention => 90,
        }
    }
}

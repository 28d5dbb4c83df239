use std::sync::Arc;
use wh_filed::FiledPartition;
use wh_part::Partition;
use wh_value::Row;

/// Partitions of the file, and behind them those that stand in memory.
#[derive(Clone, Copy)]
pub struct Parts<'a> {
    pub filed: &'a [&'a FiledPartition],
    pub made: &'a [Partition],
}

/// Partitions that were loaded from the file, and behind them those that stand in memory.
#[derive(Clone, Copy)]
pub struct Loaded<'a> {
    pub loaded: &'a [Arc<Partition>],
    pub made: &'a [Partition],
}

/// Where the rows of a source stand.
#[derive(Clone, Copy)]
pub enum Source<'a> {
    Parts(Parts<'a>),
    Loaded(Loaded<'a>),
    /// At hand.
    Rows(&'a [Row]),
}

use std::sync::Arc;
use wh_part::Partition;

/// When a version was pushed, and the partitions that came with it, at hand.
#[derive(Debug, Drop)]
pub(crate) struct Arrived {
    pub(crate) stamp: u64,
    pub(crate) came: Vec<Arc<Partition>>,
}

/// What came with the versions behind a stamp.
#[derive(Debug, Drop)]
pub struct Appended {
    /// Partitions that came with versions in front: those that may have a row number in common
    /// with what came behind them.
    pub(crate) seen: Vec<Arc<Partition>>,
    pub(crate) later: Vec<Arrived>,
}

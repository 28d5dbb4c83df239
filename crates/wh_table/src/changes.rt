use crate::StoredTable;
use std::alloc::{AllocError, Global};
use wh_version::{Arrivals, Leading, Turnover};

impl StoredTable {
    ghost use Rattle.std.specs.Prelude.{◌≡◌, ◌<◌, ◌≤◌, [], length, take, drop, IfOk};
    ghost use Rattle.std.specs.List.{AllByRecursion};
    ghost use Rattle.std.specs.FinMap.{entries};
    ghost use Rattle.wh_filed.specs.Filed.{filed_at, partitions_at, AreAmong};
    ghost use Rattle.wh_state.specs.State.{content_in};
    ghost use Rattle.wh_state.specs.Commit.{AllApart};
    ghost use Rattle.wh_state.specs.Stored.{rows_of};
    ghost use Rattle.wh_version.specs.Arrivals.{IsFront};
    ghost use Rattle.wh_version.specs.Times.{data_at};
    ghost use Rattle.wh_version.specs.Moved.{IsMoved};
    ghost use Rattle.wh_version.specs.Turnover.{IsTurnover};
    ghost use Rattle.wh_table.specs.Changes.{AreArrivals};
    ghost use Rattle.wh_table.specs.Shown.{TurnsOver};
    ghost use Rattle.wh_table.specs.Table.{table_of, filed_of};

    /// What went and came from the last version whose data timestamp is at most `from` to the last
    /// one whose data timestamp is at most `to`. Where no version is old enough, nothing stands.
    pub fn turnover(&self, alloc: Global, from: u64, to: u64) -> Result<Turnover<'_>, AllocError>
        requires { from ≤ to }
        ensures turned { IfOk result (λ found. TurnsOver
            (partitions_at found.went.items) (partitions_at found.came.items)
            (rows_of (content_in [] (data_at from (table_of self.now).versions)))
            (rows_of (content_in [] (data_at to (table_of self.now).versions)))) }
        ensures parts { IfOk result (λ found. IsTurnover
            (partitions_at found.went.items) (partitions_at found.came.items)
            (content_in [] (data_at from (table_of self.now).versions))
            (content_in [] (data_at to (table_of self.now).versions))) }
        ensures went { IfOk result (λ found. AllByRecursion
            (IsMoved from to (table_of self.now).versions (filed_of self.now))
            (filed_at found.went.items)) }
        ensures came { IfOk result (λ found. AllByRecursion
            (IsMoved from to (table_of self.now).versions (filed_of self.now))
            (filed_at found.came.items)) }
    {
        let turnover = self.history.turnover(alloc, from, to)?;
        Ok(turnover)
    }

    /// How many versions there are.
    pub fn version_count(&self) -> usize
        ensures { result ≡ length (table_of self.now).versions }
    {
        self.history.count()
    }

    /// What came with the version at a place, from the first one on.
    pub fn arrivals(&self, alloc: Global, place: usize) -> Result<Arrivals<'_>, AllocError>
        requires { place < length (table_of self.now).versions }
        ensures came { IfOk result (λ found. AreArrivals found.stamp
            (entries (rows_of (partitions_at found.came.items)))
            (take place (table_of self.now).versions) (drop place (table_of self.now).versions)) }
        ensures apart { IfOk result (λ found. AllApart [] (partitions_at found.came.items)) }
        ensures among { IfOk result (λ found.
            AreAmong (filed_at found.came.items) (filed_of self.now)) }
    {
        let arrivals = self.history.arrivals(alloc, place)?;
        Ok(arrivals)
    }

    /// The versions at the front that were pushed by a stamp, and what came with them.
    pub fn front(&self, alloc: Global, stamp: u64) -> Result<Leading<'_>, AllocError>
        ensures came { IfOk result (λ front. IsFront stamp front.count
            (partitions_at front.came.items) (table_of self.now).versions) }
        ensures among { IfOk result (λ front.
            AreAmong (filed_at front.came.items) (filed_of self.now)) }
    {
        self.history.front(alloc, stamp)
    }
}

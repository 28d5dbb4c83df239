ghost use Rattle.std.specs.Prelude.{◌≡◌, ◌≤◌, length, IsTrue};
ghost use Rattle.std.specs.List.{list_all};
ghost use Rattle.wh_value.specs.Limit.{bound};
ghost use Rattle.wh_value.specs.declared.limit.Limit.TheVariants as limits;
ghost use Rattle.wh_version.specs.History.{versions_of, partitions_of};
ghost use Rattle.wh_table.specs.Apart.{highest_number, is_apart, is_rising};

use std::alloc::Global;
use wh_value::Column;
use wh_version::{History, Version};

/// A table with all its versions.
#[derive(Debug, Drop)]
pub struct StoredTable {
    /// The stamp of its creation.
    pub(crate) created: u64,
    pub(crate) columns: Vec<Column>,
    pub(crate) retention: u8,
    pub(crate) next_row: u64,
    /// The highest row number of all versions; 0 where none has a row.
    pub(crate) highest: u64,
    pub(crate) history: History,
    ghost few_columns: { length columns.items ≤ bound limits.Columns },
    ghost row_numbers: { next_row ≤ bound limits.RowNumber },
    ghost highest_row: { highest ≡ highest_number (partitions_of history) },
    ghost apart: { IsTrue (list_all is_apart (versions_of history)) },
    ghost rising: { IsTrue (list_all is_rising (versions_of history)) },
}

impl StoredTable {
    ghost use Rattle.std.specs.Prelude.{◌≡◌, ◌≤◌, ◌^◌, [], map, length, option_map};
    ghost use Rattle.wh_value.specs.View.{column_of};
    ghost use Rattle.wh_value.specs.Limit.{bound};
    ghost use Rattle.wh_value.specs.declared.limit.Limit.TheVariants as limits;
    ghost use Rattle.wh_state.specs.State.{new_table, empty_table};
    ghost use Rattle.wh_version.specs.Times.{data_at, visible_at};
    ghost use Rattle.wh_version.specs.Version.{version_in};
    ghost use Rattle.wh_table.specs.Table.{table_of, filed_of};

    /// A table with one version without rows. Takes no memory.
    pub fn new(alloc: Global, columns: Vec<Column>, retention: u8, stamp: u64) -> StoredTable
        requires { length columns.items ≤ bound limits.Columns }
        ensures table { table_of result
            ≡ new_table [] (map column_of columns.items) retention stamp }
        ensures filed { filed_of result ≡ [] }
    {
        StoredTable {
            created: stamp,
            columns,
            retention,
            next_row: 1,
            highest: 0,
            history: History::new(alloc, stamp),
        }
    }

    /// A table without a version. Takes no memory.
    pub fn empty(alloc: Global, columns: Vec<Column>, stamp: u64) -> StoredTable
        requires { length columns.items ≤ bound limits.Columns }
        ensures table { table_of result ≡ empty_table (map column_of columns.items) stamp }
        ensures filed { filed_of result ≡ [] }
    {
        StoredTable {
            created: stamp,
            columns,
            retention: 0,
            next_row: 1,
            highest: 0,
            history: History::empty(alloc),
        }
    }

    /// The stamp of its creation.
    pub fn created(&self) -> u64
        ensures { result ≡ (table_of self.now).created }
    {
        self.created
    }

    pub fn columns(&self) -> &[Column]
        ensures columns { map column_of result.now ≡ (table_of self.now).columns }
        ensures bounded { length result.now ≤ bound limits.Columns }
    {
        self.columns.as_slice()
    }

    /// How many days its changes are kept.
    pub fn retention(&self) -> u8
        ensures { result ≡ (table_of self.now).retention }
    {
        self.retention
    }

    pub fn next_row(&self) -> u64
        ensures number { result ≡ (table_of self.now).next_row }
        ensures bounded { result ≤ bound limits.RowNumber }
    {
        self.next_row
    }

    pub fn next_partition(&self) -> u64
        ensures number { result ≡ (table_of self.now).next_partition }
        ensures bounded { result ≤ 2 ^ 63 }
    {
        self.history.next_partition()
    }

    /// The last version whose data timestamp is at most that. None exactly where no version is
    /// old enough.
    pub fn at(&self, timestamp: u64) -> Option<Version<'_>>
        ensures { option_map version_in result ≡ data_at timestamp (table_of self.now).versions }
    {
        self.history.at(timestamp)
    }

    /// The last version whose stamp is at most that. None exactly where no version is old enough.
    pub fn visible(&self, stamp: u64) -> Option<Version<'_>>
        ensures { option_map version_in result ≡ visible_at stamp (table_of self.now).versions }
    {
        self.history.visible(stamp)
    }
}

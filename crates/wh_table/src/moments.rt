use crate::StoredTable;
use crate::editing::EditedTable;
use wh_part::Partition;

impl StoredTable {
    ghost use Rattle.std.specs.Prelude.{◌≡◌};
    ghost use Rattle.std.specs.List.{list_any};
    ghost use Rattle.wh_version.specs.Times.{is_between};
    ghost use Rattle.wh_table.specs.Table.{table_of};

    /// Whether a version stands for a moment behind one, up to another.
    pub fn has_version_between(&self, from: u64, to: u64) -> bool
        ensures { result ≡ list_any
            (λ v. is_between from to v.data_timestamp)
            (table_of self.now).versions }
    {
        self.history.has_between(from, to)
    }
}

impl EditedTable {
    ghost use Rattle.std.specs.Prelude.{◌≡◌};

    /// The partitions that come.
    pub fn added(&self) -> &[Partition]
        ensures { result.now ≡ self.now.added.items }
    {
        self.added.as_slice()
    }

    /// The numbers of the partitions that go, and those that come.
    pub fn into_parts(self) -> (Vec<u64>, Vec<Partition>)
        ensures { result ≡ (self.removed, self.added) }
    {
        let EditedTable { removed, added } = self;
        (removed, added)
    }
}

use crate::numbers::{highest_kept, highest_of};
use crate::{StageFault, StoredTable};
use std::alloc::{AllocError, Global};
use wh_record::OutlinedVersion;

impl StoredTable {
    ghost use Rattle.std.specs.Prelude.{◌≡◌, ◌≤◌, ◌++◌, OnOk, OnErr, IsErrOf};
    ghost use Rattle.wh_value.specs.Limit.{bound};
    ghost use Rattle.wh_value.specs.declared.limit.Limit.TheVariants as limits;
    ghost use Rattle.wh_state.specs.Commit.{VersionApplies, pushed};
    ghost use Rattle.wh_record.specs.Places.{filed_in_version};
    ghost use Rattle.wh_record.specs.View.{version_change_of};
    ghost use Rattle.wh_table.specs.Undoable.{taken_back};
    ghost use Rattle.wh_table.specs.Table.{table_of, kept_table};

    /// Adds a version, if it applies. The change's tag stands at that position in the file.
    pub fn push(
        &mut self,
        alloc: Global,
        change: OutlinedVersion,
        stamp: u64,
        at: u64,
    ) -> Result<(), StageFault>
        ensures applies { OnOk result (VersionApplies (table_of self.old)
            (version_change_of change)) }
        ensures pushed { OnOk result (table_of self.new
            ≡ pushed stamp (version_change_of change) (table_of self.old)) }
        ensures back { OnOk result (taken_back (table_of self.old).next_row (kept_table self.new)
            ≡ kept_table self.old) }
        ensures filed { OnOk result ((kept_table self.new).filed
            ≡ (kept_table self.old).filed ++ filed_in_version at (version_change_of change)) }
        ensures not_applicable { IsErrOf result StageFault.NotApplicable
            → VersionApplies (table_of self.old) (version_change_of change) → ⊥ }
        ensures same { OnErr result (kept_table self.new ≡ kept_table self.old) }
    {
        if !self.takes(&change) {
            return Err(StageFault::NotApplicable);
        }
        match self.add_version(alloc, change, stamp, at) {
            Ok(()) => Ok(()),
            Err(_) => Err(StageFault::OutOfMemory),
        }
    }

    fn add_version(
        &mut self,
        alloc: Global,
        change: OutlinedVersion,
        stamp: u64,
        at: u64,
    ) -> Result<(), AllocError>
        requires { VersionApplies (table_of self.old) (version_change_of change) }
        ensures pushed { OnOk result (table_of self.new
            ≡ pushed stamp (version_change_of change) (table_of self.old)) }
        ensures back { OnOk result (taken_back (table_of self.old).next_row (kept_table self.new)
            ≡ kept_table self.old) }
        ensures filed { OnOk result ((kept_table self.new).filed
            ≡ (kept_table self.old).filed ++ filed_in_version at (version_change_of change)) }
        ensures same { OnErr result (kept_table self.new ≡ kept_table self.old) }
    {
        let highest = highest_of(self.highest, &change.added);
        let timestamp = change.data_timestamp;
        let next_row = change.next_row;
        let (removed, filed) = change.filed(alloc, at)?;
        self.history.push(stamp, timestamp, &removed, filed)?;
        self.highest = highest;
        self.next_row = next_row;
        Ok(())
    }

    /// Takes the last version back; `next_row` is that of before.
    pub fn take_back(&mut self, next_row: u64)
        requires { next_row ≤ bound limits.RowNumber }
        ensures { kept_table self.new ≡ taken_back next_row (kept_table self.old) }
    {
        self.history.pop();
        self.next_row = next_row;
        self.highest = highest_kept(&self.history);
    }
}

//! Versions of an object that is a table.
use crate::{StageFault, StoredKind, StoredObject};
use std::alloc::Global;
use wh_record::OutlinedVersion;
use wh_table::StoredTable;

impl StoredObject {
    ghost use Rattle.std.specs.Prelude.{◌≡◌, ◌≤◌, ◌++◌, Some, OnOk, OnErr, IfOk, IsErrOf};
    ghost use Rattle.wh_value.specs.Limit.{bound};
    ghost use Rattle.wh_value.specs.declared.limit.Limit.TheVariants as limits;
    ghost use Rattle.wh_state.specs.Commit.{FitsObject, pushed_object};
    ghost use Rattle.wh_record.specs.View.{version_change_of};
    ghost use Rattle.wh_record.specs.Places.{filed_in_version};
    ghost use Rattle.wh_catalog.specs.Undoable.{object_in};
    ghost use Rattle.wh_catalog.specs.Object.{kept_object, filed_in_kind};
    ghost use Rattle.wh_catalog.specs.Back.{object_taken_back};

    /// Adds a version to a table that lives, if it applies. The result is the next row of before.
    /// The change's tag stands at that position.
    pub(crate) fn push(
        &mut self,
        alloc: Global,
        change: OutlinedVersion,
        stamp: u64,
        at: u64,
    ) -> Result<u64, StageFault>
        ensures applies { OnOk result (FitsObject (Some (object_in (kept_object self.old)))
            (version_change_of change)) }
        ensures pushed { OnOk result (object_in (kept_object self.new)
            ≡ pushed_object stamp (version_change_of change) (object_in (kept_object self.old))) }
        ensures filed { OnOk result (filed_in_kind (kept_object self.new).kind
            ≡ filed_in_kind (kept_object self.old).kind
            ++ filed_in_version at (version_change_of change)) }
        ensures back { IfOk result (λ next_row. object_taken_back next_row (kept_object self.new)
            ≡ kept_object self.old) }
        ensures bounded { IfOk result (λ next_row. next_row ≤ bound limits.RowNumber) }
        ensures not_applicable { IsErrOf result StageFault.NotApplicable
            → FitsObject (Some (object_in (kept_object self.old))) (version_change_of change) → ⊥ }
        ensures same { OnErr result (kept_object self.new ≡ kept_object self.old) }
        ensures live { self.new.is_live ≡ self.old.is_live }
        ensures name { self.new.name ≡ self.old.name }
    {
        if !self.is_live {
            return Err(StageFault::NotApplicable);
        }
        match &mut self.kind {
            StoredKind::Table(table) => push_to(table, alloc, change, stamp, at),
            StoredKind::Dynamic(_, table) => push_to(table, alloc, change, stamp, at),
            StoredKind::Stream(_) | StoredKind::Task(_) => Err(StageFault::NotApplicable),
        }
    }

    /// Takes the last version of a table back; `next_row` is that of before.
    pub(crate) fn take_back(&mut self, next_row: u64)
        requires { next_row ≤ bound limits.RowNumber }
        ensures back { kept_object self.new ≡ object_taken_back next_row (kept_object self.old) }
        ensures live { self.new.is_live ≡ self.old.is_live }
        ensures name { self.new.name ≡ self.old.name }
    {
        match &mut self.kind {
            StoredKind::Table(table) => table.take_back(next_row),
            StoredKind::Dynamic(_, table) => table.take_back(next_row),
            StoredKind::Stream(_) | StoredKind::Task(_) => {}
        }
    }
}

ghost use Rattle.std.specs.Prelude.{◌≡◌, ◌≤◌, ◌++◌, OnOk, OnErr, IfOk, IsErrOf};
ghost use Rattle.wh_value.specs.Limit.{bound};
ghost use Rattle.wh_value.specs.declared.limit.Limit.TheVariants as limits;
ghost use Rattle.wh_state.specs.Commit.{VersionApplies, pushed};
ghost use Rattle.wh_record.specs.View.{version_change_of};
ghost use Rattle.wh_record.specs.Places.{filed_in_version};
ghost use Rattle.wh_table.specs.Undoable.{taken_back};
ghost use Rattle.wh_table.specs.Table.{table_of, kept_table};

// Adds a version to a table, if it applies. The result is the next row of before.
fn push_to(
    table: &mut StoredTable,
    alloc: Global,
    change: OutlinedVersion,
    stamp: u64,
    at: u64,
) -> Result<u64, StageFault>
    ensures applies { OnOk result (VersionApplies (table_of table.old) (version_change_of change)) }
    ensures pushed { OnOk result (table_of table.new
        ≡ pushed stamp (version_change_of change) (table_of table.old)) }
    ensures filed { OnOk result ((kept_table table.new).filed
        ≡ (kept_table table.old).filed ++ filed_in_version at (version_change_of change)) }
    ensures back { IfOk result (λ next_row. taken_back next_row (kept_table table.new)
        ≡ kept_table table.old) }
    ensures bounded { IfOk result (λ next_row. next_row ≤ bound limits.RowNumber) }
    ensures not_applicable { IsErrOf result StageFault.NotApplicable
        → VersionApplies (table_of table.old) (version_change_of change) → ⊥ }
    ensures same { OnErr result (kept_table table.new ≡ kept_table table.old) }
{
    let next_row = table.next_row();
    table.push(alloc, change, stamp, at)?;
    Ok(next_row)
}

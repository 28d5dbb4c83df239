use crate::{Catalog, StageFault, StoredKind, StoredObject};
use wh_record::TableChange;
use wh_table::StoredTable;
use wh_value::{Column, Limit, Text};

impl Catalog {
    ghost use Rattle.std.specs.Prelude.{◌≡◌, ◌++◌, ◌∷◌, [], OnOk, IfOk, IsErrOf};
    ghost use Rattle.wh_state.specs.Commit.{TableApplies, changed, CreatesTable};
    ghost use Rattle.wh_record.specs.View.{table_change_of};
    ghost use Rattle.wh_catalog.specs.Conditions.{is_new_object, table_applies};
    ghost use Rattle.wh_catalog.specs.Undoable.{object_in};
    ghost use Rattle.wh_catalog.specs.Object.{kept_object, filed_in_kind};
    ghost use Rattle.wh_catalog.specs.Catalog.{objects_of};

    /// The table of a change, with one version without rows, if it applies. Takes no memory.
    pub(crate) fn new_table(
        &self,
        change: TableChange,
        stamp: u64,
    ) -> Result<StoredObject, StageFault>
        ensures applies { OnOk result (TableApplies (objects_of self.now)
            (table_change_of change)) }
        ensures made { IfOk result (λ made. objects_of self.now ++ object_in (kept_object made) ∷ []
            ≡ changed stamp (objects_of self.now) (CreatesTable (table_change_of change))) }
        ensures named { IfOk result (λ made. made.name ≡ change.name) }
        ensures nothing { IfOk result (λ made. filed_in_kind (kept_object made).kind ≡ []) }
        ensures not_applicable { IsErrOf result StageFault.NotApplicable
            → TableApplies (objects_of self.now) (table_change_of change) → ⊥ }
    {
        if !self.table_applies(&change) {
            return Err(StageFault::NotApplicable);
        }
        let table = StoredTable::new(self.alloc, change.columns, change.retention, stamp);
        Ok(StoredObject {
            name: change.name,
            is_live: true,
            kind: StoredKind::Table(table),
        })
    }

    // Whether a new table applies.
    fn table_applies(&self, change: &TableChange) -> bool
        ensures { result ≡ table_applies (objects_of self.now) (table_change_of change.now) }
    {
        self.is_new_object(change.id, &change.name)
            && change.retention as u64 <= Limit::Retention.bound()
            && are_stored_columns(&change.columns)
    }

    /// Whether an id and a name are those of a new object.
    pub(crate) fn is_new_object(&self, id: u32, name: &Text) -> bool
        ensures { result ≡ is_new_object (objects_of self.now) id name.now }
    {
        id as u64 == self.object_count() + 1
            && self.live_count() < Limit::Objects.bound()
            && self.find(name.as_bytes()).is_none()
            && is_stored_name(name)
    }
}

ghost use Rattle.std.specs.Prelude.{◌≡◌, map};
ghost use Rattle.std.specs.List.{list_all};
ghost use Rattle.wh_value.specs.View.{column_of};
ghost use Rattle.wh_catalog.specs.Conditions.{is_stored_name, is_stored_column, are_stored_columns};

fn is_stored_name(name: &Text) -> bool
    ensures { result ≡ is_stored_name name.now }
{
    let bytes = name.as_bytes();
    0 < bytes.len() && bytes.len() as u64 <= Limit::Name.bound()
}

/// Whether there are columns, no more than the limit, and each has a name that may be stored.
pub(crate) fn are_stored_columns(columns: &[Column]) -> bool
    ensures { result ≡ are_stored_columns (map column_of columns.now) }
{
    let count = columns.len() as u64;
    if count == 0 || Limit::Columns.bound() < count {
        return false;
    }
    all_stored(columns)
}

fn all_stored(columns: &[Column]) -> bool
    ensures { result ≡ list_all (λ column. is_stored_column (column_of column)) columns.now }
{
    columns.iter().all(|column| is_stored_column(column))
}

fn is_stored_column(column: &Column) -> bool
    ensures { result ≡ is_stored_column (column_of column.now) }
{
    is_stored_name(&column.name)
}

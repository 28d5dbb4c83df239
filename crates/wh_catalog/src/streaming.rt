//! New streams.
use crate::{Catalog, StageFault, StoredKind, StoredObject, StoredStream, StoredTable};
use std::alloc::{AllocError, Global};
use wh_record::StreamChange;
use wh_value::{Column, ColumnType, Text};

impl Catalog {
    ghost use Rattle.std.specs.Prelude.{◌≡◌, ℕ, ◌++◌, ◌∷◌, [], is_some, OnOk, IfOk, IfSome};
    ghost use Rattle.std.specs.Prelude.{IsErrOf};
    ghost use Rattle.wh_state.specs.State.{at_id, columns_at};
    ghost use Rattle.wh_state.specs.Commit.{StreamApplies, changed, CreatesStream};
    ghost use Rattle.wh_record.specs.View.{stream_change_of};
    ghost use Rattle.wh_table.specs.Table.{table_of};
    ghost use Rattle.wh_catalog.specs.Conditions.{is_live_table, is_table_at};
    ghost use Rattle.wh_catalog.specs.Undoable.{object_in};
    ghost use Rattle.wh_catalog.specs.Object.{kept_object, filed_in_kind};
    ghost use Rattle.wh_catalog.specs.Catalog.{objects_of};

    /// The stream of a change, if it applies.
    pub(crate) fn new_stream(&self, change: StreamChange) -> Result<StoredObject, StageFault>
        ensures applies { OnOk result (StreamApplies (objects_of self.now)
            (stream_change_of change)) }
        ensures made { IfOk result (λ made. (stamp : ℕ)
            → objects_of self.now ++ object_in (kept_object made) ∷ []
            ≡ changed stamp (objects_of self.now) (CreatesStream (stream_change_of change))) }
        ensures named { IfOk result (λ made. made.name ≡ change.name) }
        ensures nothing { IfOk result (λ made. filed_in_kind (kept_object made).kind ≡ []) }
        ensures not_applicable { IsErrOf result StageFault.NotApplicable
            → StreamApplies (objects_of self.now) (stream_change_of change) → ⊥ }
    {
        if !self.is_new_object(change.id, &change.name) {
            return Err(StageFault::NotApplicable);
        }
        let Some(table) = self.live_table(change.source) else {
            return Err(StageFault::NotApplicable);
        };
        if change.is_append_only && !self.is_table(change.source) {
            return Err(StageFault::NotApplicable);
        }
        let Ok(columns) = with_metadata(self.alloc, table.columns()) else {
            return Err(StageFault::OutOfMemory);
        };
        let stream = StoredStream {
            source: change.source,
            is_append_only: change.is_append_only,
            offset: change.offset,
            columns,
        };
        Ok(StoredObject {
            name: change.name,
            is_live: true,
            kind: StoredKind::Stream(stream),
        })
    }

    // Whether the object of an id is a table; a dynamic table is none.
    fn is_table(&self, id: u32) -> bool
        ensures { result ≡ is_table_at (at_id (objects_of self.now) id) }
    {
        match self.object(id) {
            Some(object) => matches!(object.kind, StoredKind::Table(_)),
            None => false,
        }
    }

    /// The table of an id, if it lives.
    pub(crate) fn live_table(&self, id: u32) -> Option<&StoredTable>
        ensures found { is_some result ≡ is_live_table (at_id (objects_of self.now) id) }
        ensures columns { IfSome result (λ t. (table_of t.now).columns
            ≡ columns_at (objects_of self.now) id) }
    {
        let object = self.object(id)?;
        if !object.is_live {
            return None;
        }
        object.table()
    }
}

ghost use Rattle.std.specs.Prelude.{◌≡◌, ◌++◌, ◌≤◌, map, length, IfOk};
ghost use Rattle.wh_value.specs.View.{column_of, type_of};
ghost use Rattle.wh_state.specs.State.{metadata_columns};

// Equal columns, and behind them those by which changes of rows are told.
fn with_metadata(alloc: Global, columns: &[Column]) -> Result<Vec<Column>, AllocError>
    ensures { IfOk result (λ made. map column_of made.items
        ≡ map column_of columns.now ++ metadata_columns) }
{
    let mut made = copies(alloc, columns)?;
    made.push(column(alloc, "METADATA$ACTION", ColumnType::Varchar)?)?;
    made.push(column(alloc, "METADATA$ISUPDATE", ColumnType::Boolean)?)?;
    made.push(column(alloc, "METADATA$ROW_ID", ColumnType::Varchar)?)?;
    Ok(made)
}

fn column(alloc: Global, name: &str, column_type: ColumnType) -> Result<Column, AllocError>
    requires { length name.now ≤ 65536 }
    ensures { IfOk result (λ made. column_of made
        ≡ record { name = name.now; column_type = type_of column_type }) }
{
    let name = Text::of(alloc, name)?;
    Ok(Column { name, column_type })
}

fn copies(alloc: Global, columns: &[Column]) -> Result<Vec<Column>, AllocError>
    ensures { IfOk result (λ copies. map column_of copies.items ≡ map column_of columns.now) }
{
    let mut copies = Vec::new(alloc);
    for column in columns {
        copies.push(column.copy(alloc)?)?;
    }
    Ok(copies)
}

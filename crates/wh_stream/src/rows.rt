//! Records as rows: the source's values, and three behind them.
ghost use Rattle.std.specs.Prelude.{◌≡◌, ◌++◌, ◌∷◌, [], map, IfOk};
ghost use Rattle.wh_value.specs.Value as machine;
ghost use Rattle.wh_net.specs.Stream.{shown_row};
ghost use Rattle.wh_change.specs.RowChange.{row_change_of, row_changes_of};

use crate::texts::{ActionTexts, RowIds};
use std::alloc::{AllocError, Global};
use wh_change::RowChange;
use wh_value::{Row, Value};

/// How many values stand behind the source's.
const METADATA_COUNT: usize = 3;

/// A row for each record.
pub(crate) fn shown_rows(
    alloc: Global,
    source: u32,
    records: &[RowChange<'_>],
) -> Result<Vec<Row>, AllocError>
    ensures { IfOk result (λ rows. rows.items
        ≡ map (shown_row source) (row_changes_of records.now)) }
{
    let actions = ActionTexts::new(alloc)?;
    let ids = RowIds::new(alloc, source)?;
    let mut rows = Vec::with_capacity(alloc, records.len())?;
    for record in records {
        rows.push(shown_row(alloc, &actions, &ids, record)?)?;
    }
    Ok(rows)
}

fn shown_row(
    alloc: Global,
    actions: &ActionTexts,
    ids: &RowIds,
    change: &RowChange<'_>,
) -> Result<Row, AllocError>
    ensures { IfOk result (λ row. row ≡ shown_row ids.now.source (row_change_of change.now)) }
{
    let mut row = copy_with_room(alloc, change.row)?;
    row.push(Value::Text(actions.of(alloc, change.action)?))?;
    row.push(Value::Bool(change.is_update))?;
    row.push(Value::Text(ids.of(alloc, change.number)?))?;
    Ok(row)
}

// An equal row, with memory for the values behind.
fn copy_with_room(alloc: Global, row: &Row) -> Result<Row, AllocError>
    ensures { IfOk result (λ copy. copy ≡ row.now) }
{
    let count = row.len().saturating_add(METADATA_COUNT);
    let mut copy = Row::with_capacity(alloc, count)?;
    for value in row.values() {
        copy.push(value.copy(alloc)?)?;
    }
    Ok(copy)
}

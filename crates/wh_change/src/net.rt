ghost use Rattle.std.specs.Prelude.{◌≡◌, ◌++◌, OnOk, IfOk, Some};
ghost use Rattle.wh_frame.specs.Spelling.{RisesFrom};
ghost use Rattle.wh_state.specs.State.{Rows};
ghost use Rattle.wh_net.specs.Net.{net, net_change};
ghost use Rattle.wh_change.specs.RowChange.{row_changes_of};
ghost use Rattle.wh_change.specs.Rows.{row_in, entries_at, arrival_at, changes_by, arrivals_by};
ghost use Rattle.wh_change.specs.TurnedOver.{IsTurnedOver};

use crate::rows::{row_at, rows_in};
use crate::{RowChange, TurnedOver};
use std::alloc::{AllocError, Global};
use wh_part::NumberedRow;
use wh_table::by_rows;
use wh_value::Row;

/// What became of each row between two versions: those that were there then, and those that came
/// since, by rising number each. The rows of partitions that both have aren't looked at.
pub fn net_changes(alloc: Global, turned: &TurnedOver) -> Result<Vec<RowChange<'_>>, AllocError>
    ensures { IfOk result (λ records. (old new : Rows) → IsTurnedOver turned.now old new
        → row_changes_of records.items ≡ net old new) }
{
    let went = by_rows(alloc, &turned.went, &[])?;
    let came = by_rows(alloc, &turned.came, &[])?;
    let old = rows_in(&went, alloc)?;
    let new = rows_in(&came, alloc)?;
    let records = net_by(&old, &new, alloc)?;
    Ok(records)
}

// By the rows that went and those that came.
fn net_by<'a>(
    went: &[&'a NumberedRow],
    came: &[&'a NumberedRow],
    alloc: Global,
) -> Result<Vec<RowChange<'a>>, AllocError>
    requires went { RisesFrom 0 (entries_at went.now) }
    requires came { RisesFrom 0 (entries_at came.now) }
    ensures { IfOk result (λ records. row_changes_of records.items
        ≡ changes_by (entries_at came.now) (entries_at went.now)
        ++ arrivals_by (entries_at went.now) (entries_at came.now)) }
{
    let mut records = Vec::new(alloc);
    add_changes(&mut records, went, came)?;
    add_arrivals(&mut records, went, came)?;
    Ok(records)
}

// Of the rows that were there.
fn add_changes<'a>(
    records: &mut Vec<RowChange<'a>>,
    old: &[&'a NumberedRow],
    new: &[&'a NumberedRow],
) -> Result<(), AllocError>
    requires { RisesFrom 0 (entries_at new.now) }
    ensures { OnOk result (row_changes_of records.new.items ≡ row_changes_of records.old.items
        ++ changes_by (entries_at new.now) (entries_at old.now)) }
{
    for row in old {
        add_change(records, row, row_at(new, row.number))?;
    }
    Ok(())
}

fn add_change<'a>(
    records: &mut Vec<RowChange<'a>>,
    old: &'a NumberedRow,
    new: Option<&'a Row>,
) -> Result<(), AllocError>
    ensures { OnOk result (row_changes_of records.new.items ≡ row_changes_of records.old.items
        ++ net_change old.now.number (Some old.now.row) (row_in new.entry)) }
{
    let Some(row) = new else {
        records.push(RowChange::deleted(old.number, false, &old.row))?;
        return Ok(());
    };
    if old.row == *row {
        return Ok(());
    }
    records.push(RowChange::deleted(old.number, true, &old.row))?;
    records.push(RowChange::inserted(old.number, true, row))?;
    Ok(())
}

// Of the rows that are there now.
fn add_arrivals<'a>(
    records: &mut Vec<RowChange<'a>>,
    old: &[&'a NumberedRow],
    new: &[&'a NumberedRow],
) -> Result<(), AllocError>
    requires { RisesFrom 0 (entries_at old.now) }
    ensures { OnOk result (row_changes_of records.new.items ≡ row_changes_of records.old.items
        ++ arrivals_by (entries_at old.now) (entries_at new.now)) }
{
    for row in new {
        add_arrival(records, row_at(old, row.number), row)?;
    }
    Ok(())
}

fn add_arrival<'a>(
    records: &mut Vec<RowChange<'a>>,
    old: Option<&'a Row>,
    new: &'a NumberedRow,
) -> Result<(), AllocError>
    ensures { OnOk result (row_changes_of records.new.items ≡ row_changes_of records.old.items
        ++ arrival_at new.now.number (row_in old.entry) (Some new.now.row)) }
{
    if old.is_none() {
        records.push(RowChange::inserted(new.number, false, &new.row))?;
    }
    Ok(())
}

//! Rows with their numbers, where partitions keep them.
ghost use Rattle.std.specs.Prelude.{◌≡◌, ◌++◌, OnOk, IfOk};
ghost use Rattle.std.specs.FinMap.Entries.{find};
ghost use Rattle.std.specs.Ordering.{nat_cmp};
ghost use Rattle.wh_frame.specs.Spelling.{RisesFrom};
ghost use Rattle.wh_filed.specs.Filed.{loaded_of};
ghost use Rattle.wh_table.specs.Rows.{all_rows, partitions_at};
ghost use Rattle.wh_change.specs.Rows.{row_in, entry_at, entries_at, IsPlaceOf};

use std::alloc::{AllocError, Global};
use std::sync::Arc;
use wh_part::{NumberedRow, Partition};
use wh_value::Row;

/// References to loaded partitions.
pub(crate) fn at_hand(
    loaded: &[Arc<Partition>],
    alloc: Global,
) -> Result<Vec<&Partition>, AllocError>
    ensures { IfOk result (λ found. partitions_at found.items ≡ loaded_of loaded.now) }
{
    let mut found = Vec::with_capacity(alloc, loaded.len())?;
    for partition in loaded {
        found.push(partition.as_ref())?;
    }
    Ok(found)
}

/// The rows of partitions, one after the other.
pub(crate) fn rows_in<'a>(
    partitions: &[&'a Partition],
    alloc: Global,
) -> Result<Vec<&'a NumberedRow>, AllocError>
    ensures { IfOk result (λ rows. entries_at rows.items
        ≡ all_rows (partitions_at partitions.now)) }
{
    let mut rows = Vec::new(alloc);
    for partition in partitions {
        add_rows(&mut rows, partition)?;
    }
    Ok(rows)
}

fn add_rows<'a>(rows: &mut Vec<&'a NumberedRow>, partition: &'a Partition) -> Result<(), AllocError>
    ensures { OnOk result (entries_at rows.new.items
        ≡ entries_at rows.old.items ++ partition.now.rows) }
{
    for row in partition.rows() {
        rows.push(row)?;
    }
    Ok(())
}

/// The row of a number, if there is one.
pub(crate) fn row_at<'a>(rows: &[&'a NumberedRow], number: u64) -> Option<&'a Row>
    requires { RisesFrom 0 (entries_at rows.now) }
    ensures { row_in result ≡ find nat_cmp number (entries_at rows.now) }
{
    let place = place_of(rows, number);
    if rows.len() <= place {
        return None;
    }
    let found = rows[place];
    if found.number != number {
        return None;
    }
    Some(&found.row)
}

// The first place whose number isn't below it.
fn place_of(rows: &[&NumberedRow], number: u64) -> usize
    requires { RisesFrom 0 (entries_at rows.now) }
    ensures { IsPlaceOf entry_at number rows.now result }
{
    rows.partition_point(|row| row.number < number)
}

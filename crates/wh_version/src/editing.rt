ghost use Rattle.std.specs.Prelude.{◌≡◌, ◌+◌, ◌≤◌, ◌^◌, ◌++◌, ◌∷◌, [], map, length, reverse, OnOk};
ghost use Rattle.std.specs.Prelude.{IfOk};
ghost use Rattle.wh_state.specs.Edits.{edited, edited_row, made_of};
ghost use Rattle.wh_part.specs.View.{numbered_of};
ghost use Rattle.wh_filed.specs.Filed.{contents_at};

use crate::row_edits::RowEdits;
use std::alloc::{AllocError, Global};
use wh_part::{NumberedRow, Partition};

/// In the places of these partitions, which come last ones first, others of the rows that are left.
pub(crate) fn left(
    alloc: Global,
    edits: &RowEdits,
    sorted: &[&Partition],
    next: u64,
) -> Result<Vec<Partition>, AllocError>
    requires { next ≤ 2 ^ 63 }
    ensures { IfOk result (λ left. left.items ≡ made_of next
        (map (λ p. edited edits.now p.rows) (reverse (contents_at sorted.now)))) }
{
    let count = sorted.len();
    let mut left = Vec::with_capacity(alloc, count)?;
    for done in 0..count {
        add_left(alloc, &mut left, edits, sorted[count - 1 - done], next)?;
    }
    Ok(left)
}

fn add_left(
    alloc: Global,
    left: &mut Vec<Partition>,
    edits: &RowEdits,
    partition: &Partition,
    next: u64,
) -> Result<(), AllocError>
    requires { next ≤ 2 ^ 63 }
    ensures { OnOk result (left.new.items ≡ left.old.items
        ++ made_of (next + length left.old.items) (edited edits.now partition.now.rows ∷ [])) }
{
    let rows = edited(alloc, edits, partition.rows())?;
    if rows.is_empty() {
        return Ok(());
    }
    let number = next + left.len() as u64;
    left.push(Partition::make(number, rows))?;
    Ok(())
}

// The rows that are left, with the new ones in place.
fn edited(
    alloc: Global,
    edits: &RowEdits,
    rows: &[NumberedRow],
) -> Result<Vec<NumberedRow>, AllocError>
    ensures { IfOk result (λ left.
        map numbered_of left.items ≡ edited edits.now (map numbered_of rows.now)) }
{
    let mut left = Vec::with_capacity(alloc, rows.len())?;
    let mut guess = 0;
    for entry in rows {
        add_edited(alloc, &mut left, edits, entry, &mut guess)?;
    }
    Ok(left)
}

fn add_edited(
    alloc: Global,
    left: &mut Vec<NumberedRow>,
    edits: &RowEdits,
    entry: &NumberedRow,
    guess: &mut usize,
) -> Result<(), AllocError>
    ensures { OnOk result (map numbered_of left.new.items ≡ map numbered_of left.old.items
        ++ edited_row edits.now (numbered_of entry.now)) }
{
    let number = entry.number;
    let Some(row) = edits.edited_row(number, &entry.row, guess) else {
        return Ok(());
    };
    let row = row.copy(alloc)?;
    left.push(NumberedRow { number, row })?;
    Ok(())
}

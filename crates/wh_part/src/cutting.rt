ghost use Rattle.std.specs.Prelude.{◌≡◌, ◌+◌, ◌<◌, ◌≤◌, ◌^◌, map, length, take, drop, IfOk, OnOk};
ghost use Rattle.std.specs.List.{flat_map};
ghost use Rattle.wh_frame.specs.Partition as machine;
ghost use Rattle.wh_frame.specs.Partition.{numbered, partitions_of};
ghost use Rattle.wh_frame.specs.Spelling.{RisesFrom};
ghost use Rattle.wh_part.specs.View.{numbered_of};

use crate::{NumberedRow, Partition};
use std::alloc::{AllocError, Global};
use std::collections::VecDeque;
use wh_value::Row;

/// Rows as partitions of 1,000 rows each, and the rest as one more. The rows are numbered from
/// `first` on, and the partitions from `number` on.
pub fn cut(
    alloc: Global,
    rows: Vec<Row>,
    first: u64,
    number: u64,
) -> Result<Vec<Partition>, AllocError>
    requires rows { first + length rows.items < 2 ^ 64 }
    requires number { number + length rows.items < 2 ^ 64 }
    ensures rows { IfOk result (λ parts. flat_map (λ p. p.rows) parts.items
        ≡ numbered first rows.items) }
    ensures count { IfOk result (λ parts. length parts.items ≡ partitions_of (length rows.items)) }
    ensures parts { IfOk result (λ parts.
        parts.items ≡ machine.cut number (numbered first rows.items)) }
{
    let count = rows.len().div_ceil(Partition::MAX_ROWS);
    let mut rest = VecDeque::from(rows);
    let mut parts = Vec::with_capacity(alloc, count)?;
    for done in 0..count {
        let rows = next_rows(
            alloc,
            &mut rest,
            first + (done * Partition::MAX_ROWS) as u64,
        )?;
        parts.push(Partition::make(number + done as u64, rows))?;
    }
    Ok(parts)
}

/// The next 1,000 rows, or all, numbered from `first` on.
fn next_rows(
    alloc: Global,
    rest: &mut VecDeque<Row>,
    first: u64,
) -> Result<Vec<NumberedRow>, AllocError>
    requires { first + length rest.old.items < 2 ^ 64 }
    ensures some { 0 < length rest.old.items → IfOk result (λ rows. 0 < length rows.items) }
    ensures few { IfOk result (λ rows. length rows.items ≤ 1000) }
    ensures rising { IfOk result (λ rows. RisesFrom 0 (map numbered_of rows.items)) }
    ensures rows { IfOk result (λ rows. map numbered_of rows.items
        ≡ numbered first (take 1000 rest.old.items)) }
    ensures rest { OnOk result (rest.new.items ≡ drop 1000 rest.old.items) }
{
    let count = rest.len().min(Partition::MAX_ROWS);
    let mut rows = Vec::with_capacity(alloc, count)?;
    for done in 0..count {
        let row = rest.pop_front().unwrap();
        rows.push(NumberedRow {
            number: first + done as u64,
            row,
        })?;
    }
    Ok(rows)
}

ghost use Rattle.std.specs.Prelude.{◌≡◌, ◌+◌, ◌<◌, ◌^◌, map, length, SomeIff};
ghost use Rattle.std.specs.List.{flat_map};
ghost use Rattle.wh_frame.specs.Spelling.{value_bytes, row_bytes};
ghost use Rattle.wh_part.specs.View.{numbered_of};
ghost use Rattle.wh_value.specs.View.{value_of};

use crate::{NumberedRow, Partition};
use wh_value::Value;

/// How many bytes a value has.
#[tactic(auto, unfolding(wh_frame::specs::Spelling::value_bytes))]
fn value_size(value: &Value) -> u64
    ensures { result ≡ length (value_bytes (value_of value.now)) }
{
    match value {
        Value::Null | Value::Bool(false) | Value::Bool(true) => 1,
        Value::Number(_) => 9,
        Value::Text(text) => 5 + text.as_bytes().len() as u64,
    }
}

/// The bytes of some values, and those before them.
fn values_size(before: u64, values: &[Value]) -> Option<u64>
    ensures { SomeIff result
        (before + length (flat_map value_bytes (map value_of values.now)) < 2 ^ 64)
        (before + length (flat_map value_bytes (map value_of values.now))) }
{
    let mut size = before;
    for value in values {
        size = size.checked_add(value_size(value))?;
    }
    Some(size)
}

/// The bytes of a row, and those before it.
#[tactic(auto, unfolding(wh_frame::specs::Spelling::row_bytes))]
fn row_size(before: u64, numbered: &NumberedRow) -> Option<u64>
    ensures { SomeIff result (before + length (row_bytes (numbered_of numbered.now)) < 2 ^ 64)
        (before + length (row_bytes (numbered_of numbered.now))) }
{
    // the row's number
    let size = before.checked_add(8)?;
    values_size(size, numbered.row.values())
}

/// The bytes of some rows, and those before them.
fn rows_size(before: u64, rows: &[NumberedRow]) -> Option<u64>
    ensures { SomeIff result
        (before + length (flat_map row_bytes (map numbered_of rows.now)) < 2 ^ 64)
        (before + length (flat_map row_bytes (map numbered_of rows.now))) }
{
    let mut size = before;
    for numbered in rows {
        size = row_size(size, numbered)?;
    }
    Some(size)
}

impl Partition {
    ghost use Rattle.std.specs.Prelude.{◌≡◌, ◌<◌, ◌^◌, length, SomeIff};
    ghost use Rattle.wh_frame.specs.Spelling.{partition_bytes};

    /// How many bytes `encode` adds, by counting alone. None exactly where that is no number of 64
    /// bits.
    #[tactic(auto, unfolding(wh_frame::specs::Spelling::partition_bytes))]
    pub fn size(&self) -> Option<u64>
        ensures { SomeIff result (length (partition_bytes self.now) < 2 ^ 64)
            (length (partition_bytes self.now)) }
    {
        // the partition's number and the count of rows
        rows_size(12, self.rows())
    }
}

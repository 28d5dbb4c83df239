ghost use Rattle.std.specs.Prelude.{◌≡◌, ◌↔◌, length, map, nat_le, IsTrue};
ghost use Rattle.std.specs.List.{AllByRecursion};
ghost use Rattle.wh_value.specs.Value.{IsText, IsValue, IsRow};
ghost use Rattle.wh_value.specs.View.{value_of};
ghost use Rattle.wh_part.specs.Decoding.{least_after};
ghost use Rattle.wh_part.specs.View.{numbered_of};
ghost use Rattle.wh_record.specs.Decoding.{numbers_rise};
ghost use Rattle.wh_record.specs.View.{HasRow, HasRows};

use wh_part::{NumberedRow, Partition};
use wh_value::{Row, Text, Value};

/// The least number of more than 18 digits.
const NUMBER_LIMIT: u64 = 1_000_000_000_000_000_000;

/// Whether the number is greater than the last one, if there is one.
fn follows(last: Option<u64>, number: u64) -> bool
    ensures { result ≡ nat_le (least_after last) number }
{
    match last {
        None => true,
        Some(last) => last < number,
    }
}

/// Whether each number is greater than the one before.
pub(crate) fn rise(numbers: &[u64]) -> bool
    ensures { result ≡ numbers_rise 0 numbers.now }
{
    let mut last = None;
    for number in numbers {
        if !follows(last, *number) {
            return false;
        }
        last = Some(*number);
    }
    true
}

/// Whether each id is greater than the one before.
pub(crate) fn ids_rise(ids: &[u32]) -> bool
    ensures { result ≡ numbers_rise 0 ids.now }
{
    let mut last = None;
    for id in ids {
        let number = u64::from(*id);
        if !follows(last, number) {
            return false;
        }
        last = Some(number);
    }
    true
}

/// Always: a text is within the format by its type.
fn is_text(text: &Text) -> bool
    ensures { IsTrue result ↔ IsText text.now }
{
    text.as_bytes().len() <= Text::MAX_BYTES
}

/// Whether a number has at most 18 digits.
fn is_value(value: &Value) -> bool
    ensures { IsTrue result ↔ IsValue (value_of value.now) }
{
    match value {
        Value::Number(number) => number.unsigned_abs() < NUMBER_LIMIT,
        Value::Text(text) => is_text(text),
        Value::Bool(_) | Value::Null => true,
    }
}

fn are_values(values: &[Value]) -> bool
    ensures { IsTrue result ↔ AllByRecursion IsValue (map value_of values.now) }
{
    for value in values {
        if !is_value(value) {
            return false;
        }
    }
    true
}

/// Whether a row has that number of values, all within the format.
pub(crate) fn is_wide(width: u32, row: &Row) -> bool
    ensures { IsTrue result ↔ ((length row.now ≡ width) × IsRow row.now) }
{
    row.len() == width as usize && are_values(row.values())
}

fn has_row(width: u32, numbered: &NumberedRow) -> bool
    ensures { IsTrue result ↔ HasRow width (numbered_of numbered.now) }
{
    is_wide(width, &numbered.row)
}

fn are_rows(width: u32, rows: &[NumberedRow]) -> bool
    ensures { IsTrue result ↔ AllByRecursion (HasRow width) (map numbered_of rows.now) }
{
    for numbered in rows {
        if !has_row(width, numbered) {
            return false;
        }
    }
    true
}

/// Whether each row has the width's number of values, all within the format.
pub(crate) fn has_rows(width: u32, partition: &Partition) -> bool
    ensures { IsTrue result ↔ HasRows width partition.now }
{
    are_rows(width, partition.rows())
}

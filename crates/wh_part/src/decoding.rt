ghost use Rattle.std.specs.Prelude.{◌≡◌, [], ◌∷◌, ◌++◌, map, nat_le, IfOk, OnOk};
ghost use Rattle.wh_part.specs.Reading.{Gives, items_at};
ghost use Rattle.wh_part.specs.Decoding.{whole_number_at, value_at, row_at, row_count_at, rows_at};
ghost use Rattle.wh_part.specs.Decoding.{partition_at, least_after, rises_from};
ghost use Rattle.wh_part.specs.Laws.{SpellingFixesPartitions};
ghost use Rattle.wh_part.specs.View.{numbered_of};
ghost use Rattle.wh_value.specs.View.{value_of};

use crate::reading::{read_text, read_u32, read_u64};
use crate::{NumberedRow, Partition, ReadError};
use std::alloc::{AllocError, Global};
use wh_value::{Row, Value};

/// Numbers in a file are below this, with either sign.
const NUMBER_LIMIT: u64 = 1_000_000_000_000_000_000;

#[tactic(auto, unfolding(crate::specs::Decoding::whole_number_at))]
pub(crate) fn read_number(bytes: &[u8]) -> Result<(i64, &[u8]), ReadError>
    ensures { Gives (λ x. (x.0, x.1.now)) result (whole_number_at bytes.now) }
{
    let (bits, rest) = read_u64(bytes)?;
    let number = bits.cast_signed();
    if number.unsigned_abs() >= NUMBER_LIMIT {
        return Err(ReadError::Malformed);
    }
    Ok((number, rest))
}

/// A value at the front, and the bytes behind it. A number has at most 18 digits.
#[tactic(auto, unfolding(crate::specs::Decoding::value_at))]
pub fn read_value(alloc: Global, bytes: &[u8]) -> Result<(Value, &[u8]), ReadError>
    ensures { Gives (λ x. (value_of x.0, x.1.now)) result (value_at bytes.now) }
{
    match bytes {
        [] => Err(ReadError::Malformed),
        [0, rest @ ..] => Ok((Value::Null, rest)),
        [1, rest @ ..] => {
            let (number, rest) = read_number(rest)?;
            Ok((Value::Number(number), rest))
        }
        [2, rest @ ..] => Ok((Value::Bool(false), rest)),
        [3, rest @ ..] => Ok((Value::Bool(true), rest)),
        [4, rest @ ..] => {
            let (text, rest) = read_text(alloc, rest)?;
            Ok((Value::Text(text), rest))
        }
        [_, ..] => Err(ReadError::Malformed),
    }
}

/// No value yet, in the memory of a spare row or with memory for so many.
fn no_values(
    alloc: Global,
    count: usize,
    spare: &mut Vec<NumberedRow>,
) -> Result<Vec<Value>, AllocError>
    ensures { IfOk result (λ values. values.items ≡ []) }
{
    match spare.pop() {
        Some(numbered) => {
            let mut values = numbered.row.into_values();
            values.clear();
            Ok(values)
        }
        None => Vec::with_capacity(alloc, count),
    }
}

/// Puts a value behind the others, where it stands if there is room.
fn put(values: &mut Vec<Value>, value: Value) -> Result<(), AllocError>
    ensures { OnOk result (values.new.items ≡ values.old.items ++ value ∷ []) }
{
    if values.len() < values.capacity() {
        values.push_reserved(value);
        return Ok(());
    }
    values.push(value)?;
    Ok(())
}

fn read_values<'a>(
    alloc: Global,
    width: u32,
    spare: &mut Vec<NumberedRow>,
    bytes: &'a [u8],
) -> Result<(Row, &'a [u8]), ReadError>
    ensures { Gives (λ x. (x.0, x.1.now)) result (items_at value_at width bytes.now) }
{
    // each value has a byte at least
    let mut values = no_values(alloc, (width as usize).min(bytes.len()), spare)?;
    let mut rest = bytes;
    for _ in 0..width {
        let (value, after) = read_value(alloc, rest)?;
        put(&mut values, value)?;
        rest = after;
    }
    Ok((Row::of(values), rest))
}

#[tactic(auto, unfolding(crate::specs::Decoding::row_at))]
fn read_row<'a>(
    alloc: Global,
    width: u32,
    spare: &mut Vec<NumberedRow>,
    bytes: &'a [u8],
) -> Result<(NumberedRow, &'a [u8]), ReadError>
    ensures { Gives (λ x. (numbered_of x.0, x.1.now)) result (row_at width bytes.now) }
{
    let (number, rest) = read_u64(bytes)?;
    let (row, rest) = read_values(alloc, width, spare, rest)?;
    Ok((NumberedRow { number, row }, rest))
}

#[tactic(auto, unfolding(crate::specs::Decoding::row_count_at))]
pub(crate) fn read_row_count(bytes: &[u8]) -> Result<(u32, &[u8]), ReadError>
    ensures { Gives (λ x. (x.0, x.1.now)) result (row_count_at bytes.now) }
{
    let (count, rest) = read_u32(bytes)?;
    if count == 0 || count as usize > Partition::MAX_ROWS {
        return Err(ReadError::Malformed);
    }
    Ok((count, rest))
}

fn read_counted<'a>(
    alloc: Global,
    width: u32,
    count: u32,
    spare: &mut Vec<NumberedRow>,
    bytes: &'a [u8],
) -> Result<(Vec<NumberedRow>, &'a [u8]), ReadError>
    ensures { Gives (λ x. (map numbered_of x.0.items, x.1.now)) result
        (items_at (row_at width) count bytes.now) }
{
    // each row has eight bytes at least
    let mut rows = Vec::with_capacity(alloc, (count as usize).min(bytes.len() / 8))?;
    let mut rest = bytes;
    for _ in 0..count {
        let (numbered, after) = read_row(alloc, width, spare, rest)?;
        rows.push(numbered)?;
        rest = after;
    }
    Ok((rows, rest))
}

/// Whether the number is greater than the last one, if there is one.
fn follows(last: Option<u64>, number: u64) -> bool
    ensures { result ≡ nat_le (least_after last) number }
{
    match last {
        None => true,
        Some(last) => last < number,
    }
}

/// Whether each row number is greater than the one before.
fn rises(rows: &[NumberedRow]) -> bool
    ensures { result ≡ rises_from 0 (map numbered_of rows.now) }
{
    let mut last = None;
    for numbered in rows {
        if !follows(last, numbered.number) {
            return false;
        }
        last = Some(numbered.number);
    }
    true
}

#[tactic(auto, unfolding(crate::specs::Decoding::rows_at))]
fn read_rows<'a>(
    alloc: Global,
    width: u32,
    spare: &mut Vec<NumberedRow>,
    bytes: &'a [u8],
) -> Result<(Vec<NumberedRow>, &'a [u8]), ReadError>
    ensures { Gives (λ x. (map numbered_of x.0.items, x.1.now)) result (rows_at width bytes.now) }
{
    let (count, rest) = read_row_count(bytes)?;
    let (rows, rest) = read_counted(alloc, width, count, spare, rest)?;
    if !rises(&rows) {
        return Err(ReadError::Malformed);
    }
    Ok((rows, rest))
}

impl Partition {
    ghost use Rattle.std.specs.Prelude.{◌≡◌, ◌≤◌, ◌++◌, List, ℕ, length, take, IfSome, IfNone};
    ghost use Rattle.std.specs.Prelude.{IfOk};
    ghost use Rattle.wh_frame.specs.Partition as machine;
    ghost use Rattle.wh_frame.specs.Spelling.{partition_bytes, IsPartition};
    ghost use Rattle.wh_part.specs.Reading.{Gives};
    ghost use Rattle.wh_part.specs.Decoding.{partition_at};

    /// The partition at the front of the bytes, each row with `width` values, and the bytes behind
    /// it.
    pub fn read(alloc: Global, bytes: &[u8], width: u32) -> Result<(Partition, &[u8]), ReadError>
        ensures { Gives (λ x. (x.0, x.1.now)) result (partition_at width bytes.now) }
    {
        let mut spare = Vec::new(alloc);
        Partition::read_over(alloc, &mut spare, bytes, width)
    }

    /// The same, in the memory of spare rows, from the last one on.
    #[tactic(auto, unfolding(crate::specs::Decoding::partition_at))]
    pub fn read_over<'a>(
        alloc: Global,
        spare: &mut Vec<NumberedRow>,
        bytes: &'a [u8],
        width: u32,
    ) -> Result<(Partition, &'a [u8]), ReadError>
        ensures { Gives (λ x. (x.0, x.1.now)) result (partition_at width bytes.now) }
    {
        let (number, rest) = read_u64(bytes)?;
        let (rows, rest) = read_rows(alloc, width, spare, rest)?;
        Ok((Partition::make(number, rows), rest))
    }

    /// The partition at the front of the bytes, each row with `width` values, and how many bytes it
    /// takes. None exactly where no front of the bytes is one.
    pub fn decode(
        alloc: Global,
        bytes: &[u8],
        width: u32,
    ) -> Option<Result<(Partition, usize), AllocError>>
        ensures length { IfSome result (λ found. IfOk found (λ read. read.1 ≤ length bytes.now)) }
        ensures found { IfSome result (λ found. IfOk found (λ read.
            IsPartition width read.0 × (take read.1 bytes.now ≡ partition_bytes read.0))) }
        ensures again { (p : machine.Partition) (rest : List ℕ) → IsPartition width p
            → bytes.now ≡ partition_bytes p ++ rest → IfSome result (λ found. IfOk found (λ read.
            (read.0 ≡ p) × (read.1 ≡ length (partition_bytes p)))) }
        ensures none { IfNone result ((p : machine.Partition) (rest : List ℕ) →
            IsPartition width p → bytes.now ≡ partition_bytes p ++ rest → ⊥) }
    {
        match Partition::read(alloc, bytes, width) {
            Ok((partition, rest)) => Some(Ok((partition, bytes.len() - rest.len()))),
            Err(ReadError::Malformed) => None,
            Err(ReadError::Memory) => Some(Err(AllocError)),
        }
    }
}

/// No partition's bytes begin another's, and no two partitions have the same bytes.
pub fn spelling_fixes_partitions()
    ensures { SpellingFixesPartitions }
{}

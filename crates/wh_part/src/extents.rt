//! The extents of columns: of rows at hand, and as values that are owned.
ghost use Rattle.std.specs.Prelude.{◌≡◌, ◌<◌, length, map, IfOk};
ghost use Rattle.wh_value.specs.View.{value_of};
ghost use Rattle.wh_part.specs.View.{numbered_of};
ghost use Rattle.wh_part.specs.Extent.{seen_value, extent_of, started, row_absorbed, extents_of};
ghost use Rattle.wh_part.specs.Holding.{sides_of};
ghost use Rattle.wh_part.specs.Outline.{ends_of, types_in};

use crate::extent::{Extent, Types, absorb, started};
use crate::seen::{Seen, owned};
use crate::{Bounds, NumberedRow};
use std::alloc::{AllocError, Global};
use wh_value::Value;

fn seen_in(value: &Value) -> Seen<'_>
    ensures { seen_value result ≡ value_of value.now }
{
    match value {
        Value::Number(number) => Seen::Number(*number),
        Value::Bool(truth) => Seen::Bool(*truth),
        Value::Text(text) => Seen::Text(text.as_bytes()),
        Value::Null => Seen::Null,
    }
}

fn start_row<'a>(alloc: Global, values: &'a [Value]) -> Result<Vec<Extent<'a>>, AllocError>
    ensures { IfOk result (λ extents. map extent_of extents.items
        ≡ map started (map value_of values.now)) }
{
    let mut extents = Vec::with_capacity(alloc, values.len())?;
    for value in values {
        extents.push(started(seen_in(value)))?;
    }
    Ok(extents)
}

/// With a row more, as far as it reaches.
fn absorb_row<'a>(extents: &mut [Extent<'a>], values: &'a [Value])
    ensures { map extent_of extents.new
        ≡ row_absorbed (map extent_of extents.old) (map value_of values.now) }
{
    for place in 0..extents.len().min(values.len()) {
        absorb(&mut extents[place], seen_in(&values[place]));
    }
}

/// Of each column of some rows.
pub(crate) fn extents_in<'a>(
    alloc: Global,
    rows: &'a [NumberedRow],
) -> Result<Vec<Extent<'a>>, AllocError>
    requires { 0 < length rows.now }
    ensures { IfOk result (λ extents. map extent_of extents.items
        ≡ extents_of (map numbered_of rows.now)) }
{
    let mut extents = start_row(alloc, rows[0].row.values())?;
    for row in 1..rows.len() {
        absorb_row(&mut extents, rows[row].row.values());
    }
    Ok(extents)
}

/// The least and the greatest value of each column.
pub(crate) fn bounds_from(alloc: Global, extents: &[Extent<'_>]) -> Result<Vec<Bounds>, AllocError>
    ensures { IfOk result (λ columns. map sides_of columns.items
        ≡ map ends_of (map extent_of extents.now)) }
{
    let mut columns = Vec::with_capacity(alloc, extents.len())?;
    for extent in extents {
        let least = owned(alloc, extent.least)?;
        let greatest = owned(alloc, extent.greatest)?;
        columns.push(Bounds { least, greatest })?;
    }
    Ok(columns)
}

/// Which types all values of each column fit.
pub(crate) fn types_from(alloc: Global, extents: &[Extent<'_>]) -> Result<Vec<Types>, AllocError>
    ensures { IfOk result (λ types. types.items ≡ types_in (map extent_of extents.now)) }
{
    let mut types = Vec::with_capacity(alloc, extents.len())?;
    for extent in extents {
        types.push(extent.types)?;
    }
    Ok(types)
}

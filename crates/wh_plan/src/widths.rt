//! How many values the rows of a query have.
ghost use Rattle.std.specs.Prelude.{◌++◌, IfSome};
ghost use Rattle.std.specs.Bool.{OnTrue};
ghost use Rattle.wh_meaning.specs.Query as meaning;
ghost use Rattle.wh_scalar.specs.View.{scalar_of};
ghost use Rattle.wh_algebra.specs.View.{scalars_of, query_of};
ghost use Rattle.wh_filed.specs.Filed.{partitions_at, loaded_of};
ghost use Rattle.wh_moves.specs.Widths.{AreWide, IsWide, HasWidth};
ghost use Rattle.wh_exec.specs.Source.{bag_in, instance_in};
ghost use Rattle.wh_plan.specs.Widths.{IsPartWide, ArePartsWide};

use std::sync::Arc;
use wh_algebra::Query;
use wh_exec::{Loaded, Parts, Source};
use wh_filed::FiledPartition;
use wh_part::Partition;
use wh_scalar::Scalar;
use wh_value::Row;

/// How many values each row of a query has, where that is known before it is carried out. Items
/// stand above each Group of a query that a text spells, so a Group's own needn't be known.
#[cycle(width)]
pub(crate) fn width_of(query: &Query, sources: &[Source<'_>]) -> Option<usize>
    ensures { IfSome result (λ width.
        HasWidth (instance_in sources.now) (query_of query.now) width) }
{
    match query {
        Query::Scan(place) => scanned(*place, sources),
        Query::Filter(input, condition) => filtered(input.get(), condition, sources),
        Query::Project(input, items) => projected(input.get(), items.as_slice(), sources),
        Query::Join(left, right, on) => match width_of(left.get(), sources) {
            Some(width) => joined(right.get(), width, left.get(), on, sources),
            None => None,
        },
        Query::UnionAll(left, right) => match width_of(left.get(), sources) {
            Some(width) => united(right.get(), width, left.get(), sources),
            None => None,
        },
        Query::Group(..) => None,
    }
}

fn scanned(place: u32, sources: &[Source<'_>]) -> Option<usize>
    ensures { IfSome result (λ width.
        HasWidth (instance_in sources.now) (meaning.Scan place) width) }
{
    let source = sources.get(place as usize)?;
    source_width(source)
}

#[cycle(width)]
fn filtered(input: &Query, _condition: &Scalar, sources: &[Source<'_>]) -> Option<usize>
    ensures { IfSome result (λ width. HasWidth (instance_in sources.now)
        (meaning.Filter (query_of input.now) (scalar_of _condition.now)) width) }
{
    width_of(input, sources)
}

fn projected(_input: &Query, items: &[Scalar], _sources: &[Source<'_>]) -> Option<usize>
    ensures { IfSome result (λ width. HasWidth (instance_in _sources.now)
        (meaning.Project (query_of _input.now) (scalars_of items.now)) width) }
{
    Some(items.len())
}

#[cycle(width)]
fn joined(
    right: &Query,
    width: usize,
    _left: &Query,
    _on: &Scalar,
    sources: &[Source<'_>],
) -> Option<usize>
    requires { HasWidth (instance_in sources.now) (query_of _left.now) width }
    ensures { IfSome result (λ width. HasWidth (instance_in sources.now)
        (meaning.Join (query_of _left.now) (query_of right.now) (scalar_of _on.now)) width) }
{
    let right = width_of(right, sources)?;
    width.checked_add(right)
}

#[cycle(width)]
fn united(right: &Query, width: usize, _left: &Query, sources: &[Source<'_>]) -> Option<usize>
    requires { HasWidth (instance_in sources.now) (query_of _left.now) width }
    ensures { IfSome result (λ width. HasWidth (instance_in sources.now)
        (meaning.UnionAll (query_of _left.now) (query_of right.now)) width) }
{
    let right = width_of(right, sources)?;
    if width == right { Some(width) } else { None }
}

fn source_width(source: &Source<'_>) -> Option<usize>
    ensures { IfSome result (λ width. IsWide width (bag_in source.now)) }
{
    match source {
        Source::Parts(parts) => parts_width(parts),
        Source::Loaded(parts) => loaded_width(parts),
        Source::Rows(rows) => rows_width(rows),
    }
}

fn parts_width(parts: &Parts<'_>) -> Option<usize>
    ensures { IfSome result (λ width. ArePartsWide width
        (partitions_at parts.now.filed.now ++ parts.now.made.now)) }
{
    let Some(width) = first_width(parts) else {
        return None;
    };
    if are_filed_wide(parts.filed, width) && are_made_wide(parts.made, width) {
        Some(width)
    } else {
        None
    }
}

fn first_width(parts: &Parts<'_>) -> Option<usize> {
    match parts.filed.first() {
        Some(filed) => Some(filed.meta().columns.len()),
        None => first_made_width(parts.made),
    }
}

fn loaded_width(parts: &Loaded<'_>) -> Option<usize>
    ensures { IfSome result (λ width. ArePartsWide width
        (loaded_of parts.now.loaded.now ++ parts.now.made.now)) }
{
    let Some(width) = first_loaded_width(parts) else {
        return None;
    };
    if are_loaded_wide(parts.loaded, width) && are_made_wide(parts.made, width) {
        Some(width)
    } else {
        None
    }
}

fn first_loaded_width(parts: &Loaded<'_>) -> Option<usize> {
    match parts.loaded.first() {
        Some(part) => Some(first_row_width(part)),
        None => first_made_width(parts.made),
    }
}

fn first_made_width(made: &[Partition]) -> Option<usize> {
    match made.first() {
        Some(part) => Some(first_row_width(part)),
        None => None,
    }
}

fn first_row_width(part: &Partition) -> usize {
    part.rows()[0].row.len()
}

fn are_filed_wide(filed: &[&FiledPartition], width: usize) -> bool
    ensures { OnTrue result (ArePartsWide width (partitions_at filed.now)) }
{
    for place in 0..filed.len() {
        if !is_filed_wide(filed[place], width) {
            return false;
        }
    }
    true
}

fn is_filed_wide(filed: &FiledPartition, width: usize) -> bool
    ensures { OnTrue result (IsPartWide width filed.now.partition) }
{
    filed.meta().columns.len() == width
}

fn are_loaded_wide(loaded: &[Arc<Partition>], width: usize) -> bool
    ensures { OnTrue result (ArePartsWide width (loaded_of loaded.now)) }
{
    for place in 0..loaded.len() {
        if !is_part_wide(&loaded[place], width) {
            return false;
        }
    }
    true
}

fn are_made_wide(made: &[Partition], width: usize) -> bool
    ensures { OnTrue result (ArePartsWide width made.now) }
{
    for place in 0..made.len() {
        if !is_part_wide(&made[place], width) {
            return false;
        }
    }
    true
}

fn is_part_wide(part: &Partition, width: usize) -> bool
    ensures { OnTrue result (IsPartWide width part.now) }
{
    let rows = part.rows();
    for place in 0..rows.len() {
        if rows[place].row.len() != width {
            return false;
        }
    }
    true
}

fn rows_width(rows: &[Row]) -> Option<usize>
    ensures { IfSome result (λ width. AreWide width rows.now) }
{
    let Some(first) = rows.first() else {
        return None;
    };
    let width = first.len();
    for place in 0..rows.len() {
        if rows[place].len() != width {
            return None;
        }
    }
    Some(width)
}

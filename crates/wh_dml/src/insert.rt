//! INSERT: the new rows.
ghost use Rattle.wh_aggregate.specs.Given.{GivesListed};
ghost use Rattle.wh_algebra.specs.View.{scalars_of};
ghost use Rattle.wh_bound_change.specs.View as bound;
ghost use Rattle.wh_effect.specs.Effect as meaning;

use crate::Effect;
use crate::columns::are_all_columns;
use std::alloc::{AllocError, Global};
use wh_aggregate::values_on;
use wh_scalar::{EvalFault, Scalar};
use wh_value::Row;

/// The rows of scalars, each on a row without columns.
pub(crate) fn rows_of(alloc: Global, rows: &[Vec<Scalar>]) -> Result<Vec<Row>, EvalFault>
    ensures { GivesListed result (meaning.rows_of (bound.rows_of rows.now)) }
{
    let none = Row::new(alloc);
    let mut added = Vec::with_capacity(alloc, rows.len())?;
    for parts in rows {
        let row = values_on(alloc, parts, &none)?;
        added.push(row).map_err(AllocError::from)?;
    }
    Ok(added)
}

/// A row for each source row, in their order. Where the parts are the columns of each source row,
/// the rows are moved.
pub(crate) fn rows_over(
    alloc: Global,
    parts: &[Scalar],
    source: Vec<Row>,
) -> Result<Vec<Row>, EvalFault>
    ensures { GivesListed result (meaning.rows_over (scalars_of parts.now) source.items) }
{
    if are_all_columns(parts, &source) {
        return Ok(source);
    }
    new_rows_over(alloc, parts, &source)
}

fn new_rows_over(alloc: Global, parts: &[Scalar], source: &[Row]) -> Result<Vec<Row>, EvalFault>
    ensures { GivesListed result (meaning.rows_over (scalars_of parts.now) source.now) }
{
    let mut added = Vec::with_capacity(alloc, source.len())?;
    for old in source {
        let row = values_on(alloc, parts, old)?;
        added.push(row).map_err(AllocError::from)?;
    }
    Ok(added)
}

impl Effect {
    ghost use Rattle.std.specs.Prelude.{◌≡◌};
    ghost use Rattle.wh_dml.specs.View.{effect_of};
    ghost use Rattle.wh_effect.specs.Effect as meaning;

    /// No row goes or is changed, and these are added.
    pub(crate) fn adding(alloc: Global, added: Vec<Row>) -> Effect
        ensures { effect_of result ≡ record meaning.no_effect { added = added.items } }
    {
        Effect {
            removed: Vec::new(alloc),
            changed: Vec::new(alloc),
            added,
        }
    }
}

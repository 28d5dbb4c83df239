ghost use Rattle.wh_meaning.specs.Query.{values_on};
ghost use Rattle.wh_algebra.specs.View.{scalars_of};
ghost use Rattle.wh_aggregate.specs.Given.{Gives};

use std::alloc::Global;
use wh_scalar::{EvalFault, Scalar};
use wh_value::Row;

/// The row of the values of scalars on a row.
#[tactic(auto, unfolding(wh_meaning::specs::Query::values_on))]
pub fn values_on(alloc: Global, scalars: &[Scalar], row: &Row) -> Result<Row, EvalFault>
    ensures { Gives result (values_on (scalars_of scalars.now) row.now) }
{
    let mut values = Row::with_capacity(alloc, scalars.len())?;
    for scalar in scalars {
        values.push(scalar.eval(alloc, row)?)?;
    }
    Ok(values)
}

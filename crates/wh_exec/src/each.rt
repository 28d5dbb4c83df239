//! Rows that several workers go over.
ghost use Rattle.std.specs.Fn.{FnReturnsAt};
ghost use Rattle.wh_meaning.specs.Scalar.{val};
ghost use Rattle.wh_meaning.specs.Query.{values_on};
ghost use Rattle.wh_scalar.specs.View.{scalar_of, Tells};
ghost use Rattle.wh_algebra.specs.View.{scalars_of};
ghost use Rattle.wh_algebra.specs.Tuple.{row_in};
ghost use Rattle.wh_aggregate.specs.Given.{Gives};
ghost use Rattle.wh_exec.specs.Each.{AnswersEach, TellsEach, GivesEach};

use rayon::prelude::*;
use std::thread::Threads;
use wh_aggregate::values_on;
use wh_algebra::Tuple;
use wh_scalar::{Condition, EvalFault, Scalar};
use wh_value::Row;
use wh_workers::Workers;

/// What `f` answers of each row, in their order, or a fault that it answers of one.
fn each_row<R: Threads + Sync, T: Send + Drop, F: Fn(&Row) -> Result<T, EvalFault> + Sync>(
    workers: &Workers<'_, R>,
    tuples: &[Tuple<'_>],
    f: &F,
) -> Result<Vec<T>, EvalFault>
    requires { F.IsAlwaysCallable f.now }
    ensures { AnswersEach F.Fn f.now tuples.now result }
{
    let answers: Result<Vec<T>, EvalFault> = tuples
        .par_iter()
        .map(
            |tuple: &Tuple<'_>| -> Result<T, EvalFault>
                requires { F.IsAlwaysCallable f.now }
                ensures { FnReturnsAt F.Fn f.entry.now (row_in tuple.now) result }
            { f(tuple.row()) },
        )
        .collect(workers.rt, workers.alloc)?;
    answers
}

/// Whether a condition is TRUE on each row.
pub(crate) fn truths<R: Threads + Sync>(
    workers: &Workers<'_, R>,
    condition: &Condition<'_>,
    tuples: &[Tuple<'_>],
) -> Result<Vec<bool>, EvalFault>
    ensures { TellsEach result (scalar_of condition.now) tuples.now }
{
    let alloc = workers.alloc;
    each_row(
        workers,
        tuples,
        &|row: &Row| -> Result<bool, EvalFault>
            ensures { Tells result (val (scalar_of condition.entry.now) row.now) }
        { condition.holds(alloc, row) },
    )
}

/// The row of the values of scalars on each row.
pub(crate) fn images<R: Threads + Sync>(
    workers: &Workers<'_, R>,
    items: &[Scalar],
    tuples: &[Tuple<'_>],
) -> Result<Vec<Row>, EvalFault>
    ensures { GivesEach result (scalars_of items.now) tuples.now }
{
    let alloc = workers.alloc;
    each_row(
        workers,
        tuples,
        &|row: &Row| -> Result<Row, EvalFault>
            ensures { Gives result (values_on (scalars_of items.entry.now) row.now) }
        { values_on(alloc, items, row) },
    )
}

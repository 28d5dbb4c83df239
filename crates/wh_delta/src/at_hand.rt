//! Plans over rows at hand, which read no partition.
ghost use Rattle.std.specs.Prelude.{◌≡◌, [], IfOk};
ghost use Rattle.wh_meaning.specs.Query.{eval};
ghost use Rattle.wh_algebra.specs.Plan.{plan_of};
ghost use Rattle.wh_algebra.specs.Tuple.{rows_in};
ghost use Rattle.wh_exec.specs.Source.{instance_in, filed_in, bag_found};
ghost use Rattle.wh_delta.specs.Moves.{rows_bag};

use std::alloc::{AllocError, Global};
use std::thread::Threads;
use wh_algebra::{Physical, Tuple};
use wh_exec::{Source, run};
use wh_fetch::MemFetch;
use wh_value::Row;
use wh_workers::Workers;

/// The rows of a plan over rows at hand; None where they are undefined.
pub(crate) fn over<R: Threads + Sync>(
    workers: &Workers<'_, R>,
    plan: &Physical,
    sources: &[Source<'_>],
) -> Result<Option<Vec<Row>>, AllocError>
    requires { filed_in sources.now ≡ [] }
    ensures { IfOk result
        (λ found. rows_bag found ≡ eval (plan_of plan.now) (instance_in sources.now)) }
{
    let alloc = workers.alloc;
    let mut nothing = MemFetch::new(alloc, Vec::new(alloc))?;
    let Ok(found) = run(workers, plan, sources, &mut nothing) else {
        return Err(AllocError);
    };
    rows_found(alloc, found)
}

/// Rows that were found, as rows of their own.
pub(crate) fn rows_found(
    alloc: Global,
    found: Option<Vec<Tuple<'_>>>,
) -> Result<Option<Vec<Row>>, AllocError>
    ensures { IfOk result (λ rows. rows_bag rows ≡ bag_found found.entry) }
{
    let Some(tuples) = found else {
        return Ok(None);
    };
    let rows = made(alloc, tuples)?;
    Ok(Some(rows))
}

fn made(alloc: Global, tuples: Vec<Tuple<'_>>) -> Result<Vec<Row>, AllocError>
    ensures { IfOk result (λ rows. rows.items ≡ rows_in tuples.entry.items) }
{
    let mut rows = Vec::with_capacity(alloc, tuples.len())?;
    for tuple in tuples {
        put(alloc, &mut rows, tuple)?;
    }
    Ok(rows)
}

ghost use Rattle.std.specs.Prelude.{◌∷◌, ◌++◌, OnOk};
ghost use Rattle.wh_algebra.specs.Tuple.{row_in};

// One that an operator made is moved.
fn put(alloc: Global, rows: &mut Vec<Row>, tuple: Tuple<'_>) -> Result<(), AllocError>
    ensures { OnOk result (rows.new.items ≡ rows.old.items ++ row_in tuple.entry ∷ []) }
{
    let row = match tuple {
        Tuple::Kept(row) => row.copy(alloc)?,
        Tuple::Made(row) => row,
    };
    rows.push(row)?;
    Ok(())
}

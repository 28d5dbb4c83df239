ghost use Rattle.std.specs.Prelude.{◌≡◌, ◌++◌, Some, OnOk};
ghost use Rattle.wh_meaning.specs.Bag.{Bag, bag_of};
ghost use Rattle.wh_algebra.specs.Tuple.{rows_in};
ghost use Rattle.wh_exec.specs.Evaluation.{Evaluates};
ghost use Rattle.wh_exec.specs.Sink.{answer, shape_of, Has, Pours};

use crate::collecting::owned;
use crate::grouping::Grouping;
use std::alloc::{AllocError, Global};
use std::thread::Threads;
use wh_algebra::Tuple;
use wh_scalar::EvalFault;
use wh_workers::Workers;

/// Where rows go in the end.
#[derive(Drop)]
pub(crate) enum Sink<'a> {
    /// Rows of their own.
    Rows(Vec<Tuple<'a>>),
    /// Groups to which each row is added where it stands.
    Groups(Grouping<'a>),
}

/// Takes rows in.
pub(crate) fn put_in<R: Threads + Sync>(
    workers: &Workers<'_, R>,
    rows: Vec<Tuple<'_>>,
    sink: &mut Sink<'_>,
) -> Result<(), EvalFault>
    ensures { Pours result sink.old sink.new (Some (bag_of (rows_in rows.entry.items))) }
{
    match sink {
        Sink::Rows(kept) => Ok(put_all(workers.alloc, kept, rows)?),
        Sink::Groups(grouping) => grouping.add(workers, &rows),
    }
}

// A row that stands elsewhere is copied.
fn put_all(alloc: Global, kept: &mut Vec<Tuple<'_>>, rows: Vec<Tuple<'_>>) -> Result<(), AllocError>
    ensures { OnOk result (rows_in kept.new.items
        ≡ rows_in kept.old.items ++ rows_in rows.entry.items) }
{
    for tuple in rows {
        let row = owned(alloc, tuple)?;
        kept.push(Tuple::Made(row))?;
    }
    Ok(())
}

/// What the sink answers of the rows that went into it.
pub(crate) fn answered<'a>(alloc: Global, sink: Sink<'a>) -> Result<Vec<Tuple<'a>>, EvalFault>
    ensures { (bag : Bag) → Has sink.entry bag
        → Evaluates result (answer (shape_of sink.entry) (Some bag)) }
{
    match sink {
        Sink::Rows(rows) => Ok(rows),
        Sink::Groups(grouping) => grouping.list(alloc),
    }
}

//! Rows that go through steps and into a sink, the rows of a partition at a time.
ghost use Rattle.std.specs.Prelude.{◌≡◌, ◌++◌, Some, map, IfOk, OnOk};
ghost use Rattle.wh_meaning.specs.Bag.{bag_of};
ghost use Rattle.wh_part.specs.View.{numbered_of};
ghost use Rattle.wh_filed.specs.Filed.{loaded_of};
ghost use Rattle.wh_algebra.specs.Tuple.{rows_in};
ghost use Rattle.wh_exec.specs.Evaluation.{Evaluates};
ghost use Rattle.wh_exec.specs.Source.{parts_bag};
ghost use Rattle.wh_exec.specs.Step.{through};
ghost use Rattle.wh_exec.specs.Sink.{Pours};

use crate::Loaded;
use crate::sink::{Sink, put_in};
use crate::step::{Step, stepped};
use std::alloc::{AllocError, Global};
use std::sync::Arc;
use std::thread::Threads;
use wh_algebra::Tuple;
use wh_part::{NumberedRow, Partition};
use wh_scalar::EvalFault;
use wh_value::Row;
use wh_workers::Workers;

/// What comes of rows by the steps goes into the sink.
pub(crate) fn pour<R: Threads + Sync>(
    workers: &Workers<'_, R>,
    rows: Vec<Tuple<'_>>,
    steps: &[Step<'_>],
    sink: &mut Sink<'_>,
) -> Result<(), EvalFault>
    ensures { Pours result sink.old sink.new
        (through steps.now (Some (bag_of (rows_in rows.entry.items)))) }
{
    let left = walked(workers, rows, steps)?;
    put_in(workers, left, sink)
}

// What comes of rows by the steps, of which the last is the first to be taken.
fn walked<'a, R: Threads + Sync>(
    workers: &Workers<'_, R>,
    rows: Vec<Tuple<'a>>,
    steps: &[Step<'_>],
) -> Result<Vec<Tuple<'a>>, EvalFault>
    ensures { Evaluates result
        (through steps.now (Some (bag_of (rows_in rows.entry.items)))) }
{
    let mut found = rows;
    let mut ahead = steps.len();
    while ahead > 0 {
        ahead -= 1;
        found = stepped(workers, &steps[ahead], found)?;
    }
    Ok(found)
}

/// The same of rows at hand, where they stand.
pub(crate) fn pour_rows<R: Threads + Sync>(
    workers: &Workers<'_, R>,
    rows: &[Row],
    steps: &[Step<'_>],
    sink: &mut Sink<'_>,
) -> Result<(), EvalFault>
    ensures { Pours result sink.old sink.new (through steps.now (Some (bag_of rows.now))) }
{
    let kept = kept(workers.alloc, rows)?;
    pour(workers, kept, steps, sink)
}

fn kept<'a>(alloc: Global, rows: &'a [Row]) -> Result<Vec<Tuple<'a>>, AllocError>
    ensures { IfOk result (λ tuples. rows_in tuples.items ≡ rows.now) }
{
    let mut tuples = Vec::with_capacity(alloc, rows.len())?;
    for row in rows {
        tuples.push(Tuple::Kept(row))?;
    }
    Ok(tuples)
}

/// The same of partitions, one after the other.
pub(crate) fn pour_parts<R: Threads + Sync>(
    workers: &Workers<'_, R>,
    parts: &[Partition],
    steps: &[Step<'_>],
    sink: &mut Sink<'_>,
) -> Result<(), EvalFault>
    ensures { Pours result sink.old sink.new (through steps.now (Some (parts_bag parts.now))) }
{
    for part in parts {
        pour_part(workers, part, steps, sink)?;
    }
    Ok(())
}

/// The same of a partition.
pub(crate) fn pour_part<R: Threads + Sync>(
    workers: &Workers<'_, R>,
    part: &Partition,
    steps: &[Step<'_>],
    sink: &mut Sink<'_>,
) -> Result<(), EvalFault>
    ensures { Pours result sink.old sink.new
        (through steps.now (Some (bag_of (map (λ e. e.1) part.now.rows)))) }
{
    let kept = kept_numbered(workers.alloc, part.rows())?;
    pour(workers, kept, steps, sink)
}

/// The same of partitions that were loaded, all their rows at once.
pub(crate) fn pour_loaded<R: Threads + Sync>(
    workers: &Workers<'_, R>,
    parts: &[Arc<Partition>],
    steps: &[Step<'_>],
    sink: &mut Sink<'_>,
) -> Result<(), EvalFault>
    ensures { Pours result sink.old sink.new
        (through steps.now (Some (parts_bag (loaded_of parts.now)))) }
{
    let mut kept = Vec::new(workers.alloc);
    for part in parts {
        put_numbered(&mut kept, part.rows())?;
    }
    pour(workers, kept, steps, sink)
}

/// The same of a source that was loaded.
pub(crate) fn pour_at_hand<R: Threads + Sync>(
    workers: &Workers<'_, R>,
    parts: &Loaded<'_>,
    steps: &[Step<'_>],
    sink: &mut Sink<'_>,
) -> Result<(), EvalFault>
    ensures { Pours result sink.old sink.new (through steps.now
        (Some (parts_bag (loaded_of parts.now.loaded.now ++ parts.now.made.now)))) }
{
    pour_loaded(workers, parts.loaded, steps, sink)?;
    pour_parts(workers, parts.made, steps, sink)
}

fn kept_numbered<'a>(alloc: Global, rows: &'a [NumberedRow]) -> Result<Vec<Tuple<'a>>, AllocError>
    ensures { IfOk result (λ tuples. rows_in tuples.items
        ≡ map (λ e. e.1) (map numbered_of rows.now)) }
{
    let mut tuples = Vec::new(alloc);
    put_numbered(&mut tuples, rows)?;
    Ok(tuples)
}

fn put_numbered<'a>(tuples: &mut Vec<Tuple<'a>>, rows: &'a [NumberedRow]) -> Result<(), AllocError>
    ensures { OnOk result (rows_in tuples.new.items
        ≡ rows_in tuples.old.items ++ map (λ e. e.1) (map numbered_of rows.now)) }
{
    tuples.reserve(rows.len())?;
    for numbered in rows {
        tuples.push(Tuple::Kept(&numbered.row))?;
    }
    Ok(())
}

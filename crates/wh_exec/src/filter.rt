//! Filter: the rows on which a condition is TRUE. Rows are moved, not copied.
ghost use Rattle.std.specs.Prelude.{◌≡◌, Bool, List, [], ◌∷◌, ◌++◌, if◌then◌else◌, OnOk};
ghost use Rattle.std.specs.Vec.Iter.{into_iter_items};
ghost use Rattle.wh_meaning.specs.Bag.{bag_of};
ghost use Rattle.wh_meaning.specs.Query.{kept_by};
ghost use Rattle.wh_meaning.specs.Query as meaning;
ghost use Rattle.wh_scalar.specs.View.{scalar_of};
ghost use Rattle.wh_algebra.specs.Tuple.{row_in, rows_in};
ghost use Rattle.wh_exec.specs.Evaluation.{Evaluates, Adds};

use crate::each::truths;
use crate::tuples::put;
use std::alloc::{AllocError, Global};
use std::thread::Threads;
use std::vec;
use wh_algebra::Tuple;
use wh_scalar::{Condition, EvalFault};
use wh_workers::Workers;

pub(crate) fn filtered<'a, R: Threads + Sync>(
    workers: &Workers<'_, R>,
    condition: &Condition<'_>,
    rows: Vec<Tuple<'a>>,
) -> Result<Vec<Tuple<'a>>, EvalFault>
    ensures { Evaluates result
        (meaning.filtered (scalar_of condition.now) (bag_of (rows_in rows.entry.items))) }
{
    if workers.count == 1 {
        return filtered_in_turn(workers.alloc, condition, rows);
    }
    let mut told = truths(workers, condition, &rows)?.into_iter();
    let mut kept = Vec::new(workers.alloc);
    for row in rows {
        let holds = next_of(&mut told);
        pick(holds, row, &mut kept)?;
    }
    Ok(kept)
}

// Adds the row where it is picked.
fn pick<'a>(holds: bool, row: Tuple<'a>, kept: &mut Vec<Tuple<'a>>) -> Result<(), AllocError>
    ensures { OnOk result
        (kept.new.items ≡ kept.old.items ++ (if holds then row.entry ∷ [] else [])) }
{
    if holds {
        put(kept, row)?;
    }
    Ok(())
}

// The next truth, of which there is one.
fn next_of(told: &mut vec::IntoIter<bool>) -> bool
    ensures { (truth : Bool) (rest : List Bool) → into_iter_items told.old ≡ truth ∷ rest
        → (result ≡ truth) × (into_iter_items told.new ≡ rest) }
{
    match told.next() {
        Some(truth) => truth,
        None => false,
    }
}

// The same, one row after the other.
fn filtered_in_turn<'a>(
    alloc: Global,
    condition: &Condition<'_>,
    rows: Vec<Tuple<'a>>,
) -> Result<Vec<Tuple<'a>>, EvalFault>
    ensures { Evaluates result
        (meaning.filtered (scalar_of condition.now) (bag_of (rows_in rows.entry.items))) }
{
    let mut kept = Vec::new(alloc);
    for row in rows {
        keep(alloc, condition, row, &mut kept)?;
    }
    Ok(kept)
}

// Adds the row where the condition is TRUE on it.
fn keep<'a>(
    alloc: Global,
    condition: &Condition<'_>,
    row: Tuple<'a>,
    kept: &mut Vec<Tuple<'a>>,
) -> Result<(), EvalFault>
    ensures { Adds result kept.old.items kept.new.items
        (kept_by (scalar_of condition.now) (row_in row.entry)) }
{
    if condition.holds(alloc, row.row())? {
        put(kept, row)?;
    }
    Ok(())
}

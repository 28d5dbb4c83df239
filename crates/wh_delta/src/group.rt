//! Group: the groups of the keys that changed rows have, before and afterwards.
ghost use Rattle.std.specs.Prelude.{◌≡◌, [], ◌∷◌, ◌++◌, IfOk, OnOk};
ghost use Rattle.wh_meaning.specs.Bag.{bag_of};
ghost use Rattle.wh_meaning.specs.Query as meaning;
ghost use Rattle.wh_algebra.specs.View.{scalars_of, calls_of};
ghost use Rattle.wh_maintenance.specs.Delta.{key_among, with_keys, recounted, regrouped};
ghost use Rattle.wh_delta.specs.Moves.{change_of, change_found};

use crate::at_hand::over;
use crate::linear::united;
use crate::moves::{Moves, Turned};
use crate::plans::{group, project_both};
use crate::staying::{counted, staying};
use std::alloc::{AllocError, Global};
use std::thread::Threads;
use wh_aggregate::values_on;
use wh_algebra::Call;
use wh_bag::Bag;
use wh_exec::Source;
use wh_scalar::{EvalFault, Scalar};
use wh_value::Row;
use wh_workers::Workers;

#[tactic(auto, unfolding(wh_meaning::specs::Query::eval))]
pub(crate) fn regroup<R: Threads + Sync>(
    workers: &Workers<'_, R>,
    by: &[Scalar],
    calls: &[Call],
    turned: Turned,
) -> Result<Option<Moves>, AllocError>
    ensures { IfOk result (λ found. change_found found ≡ regrouped (scalars_of by.now)
        (calls_of calls.now) (bag_of turned.old.items) (change_of turned.moves)) }
{
    let alloc = workers.alloc;
    if by.is_empty() {
        return recount(workers, by, calls, turned);
    }
    let Turned { old, moves } = turned;
    let plan = project_both(alloc, by)?;
    let sides = [Source::Rows(&moves.comes), Source::Rows(&moves.goes)];
    let Some(keys) = over(workers, plan.get(), &sides)? else {
        return Ok(None);
    };
    let keys = counted(alloc, &keys)?;
    let old = chosen(alloc, by, &keys, old)?;
    recount(workers, by, calls, Turned { old, moves })
}

// The groups of rows before, and afterwards.
#[tactic(auto, unfolding(wh_meaning::specs::Query::eval))]
fn recount<R: Threads + Sync>(
    workers: &Workers<'_, R>,
    by: &[Scalar],
    calls: &[Call],
    turned: Turned,
) -> Result<Option<Moves>, AllocError>
    ensures { IfOk result (λ found. change_found found ≡ recounted (scalars_of by.now)
        (calls_of calls.now) (change_of turned.moves) (bag_of turned.old.items)) }
{
    let Turned { old, moves } = turned;
    let plan = group(workers.alloc, by, calls)?;
    let Some(goes) = over(workers, plan.get(), &[Source::Rows(&old)])? else {
        return Ok(None);
    };
    let stays = staying(workers.alloc, old, &moves.goes)?;
    let new = united(stays, moves.comes)?;
    let Some(comes) = over(workers, plan.get(), &[Source::Rows(&new)])? else {
        return Ok(None);
    };
    Ok(Some(Moves { comes, goes }))
}

// The rows whose key is among keys.
fn chosen(alloc: Global, by: &[Scalar], keys: &Bag, rows: Vec<Row>) -> Result<Vec<Row>, AllocError>
    ensures { IfOk result (λ kept. bag_of kept.items
        ≡ with_keys (scalars_of by.now) keys.now (bag_of rows.items)) }
{
    let mut kept = Vec::new(alloc);
    for row in rows {
        choose(alloc, by, keys, row, &mut kept)?;
    }
    Ok(kept)
}

// One more row seen.
fn choose(
    alloc: Global,
    by: &[Scalar],
    keys: &Bag,
    row: Row,
    kept: &mut Vec<Row>,
) -> Result<(), AllocError>
    ensures { (seen : _) → bag_of kept.old.items
        ≡ with_keys (scalars_of by.now) keys.now (bag_of seen)
        → OnOk result (bag_of kept.new.items
        ≡ with_keys (scalars_of by.now) keys.now (bag_of (seen ++ row ∷ []))) }
{
    if is_chosen(alloc, by, keys, &row)? {
        kept.push(row)?;
    }
    Ok(())
}

// A row without a key isn't.
fn is_chosen(alloc: Global, by: &[Scalar], keys: &Bag, row: &Row) -> Result<bool, AllocError>
    ensures { IfOk result (λ is. is
        ≡ key_among keys.now (meaning.values_on (scalars_of by.now) row.now)) }
{
    match values_on(alloc, by, row) {
        Ok(key) => Ok(keys.count(&key) > 0),
        Err(EvalFault::NumberOutOfRange) => Ok(false),
        Err(EvalFault::OutOfMemory) => Err(AllocError),
    }
}

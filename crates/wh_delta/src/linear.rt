//! Operators that work row by row, and sums.
ghost use Rattle.std.specs.Prelude.{◌≡◌, [], ◌∷◌, ◌++◌, IfOk};
ghost use Rattle.wh_meaning.specs.Bag.{bag_of, plus};
ghost use Rattle.wh_meaning.specs.Query.{eval, kept_by, image_by};
ghost use Rattle.wh_scalar.specs.View.{scalar_of};
ghost use Rattle.wh_algebra.specs.View.{scalars_of};
ghost use Rattle.wh_algebra.specs.Plan.{plan_of};
ghost use Rattle.wh_maintenance.specs.Carried.{sided, carried_over};
ghost use Rattle.wh_maintenance.specs.Delta.{summed};
ghost use Rattle.wh_delta.specs.Moves.{change_of, change_found};

use crate::at_hand::over;
use crate::moves::Moves;
use crate::plans::{filter, project};
use std::alloc::AllocError;
use std::thread::Threads;
use wh_algebra::Physical;
use wh_exec::Source;
use wh_scalar::Scalar;
use wh_value::Row;
use wh_workers::Workers;

#[tactic(auto, unfolding(wh_meaning::specs::Query::eval))]
pub(crate) fn filter_moves<R: Threads + Sync>(
    workers: &Workers<'_, R>,
    condition: &Scalar,
    moves: &Moves,
) -> Result<Option<Moves>, AllocError>
    ensures { IfOk result (λ found. change_found found
        ≡ carried_over (kept_by (scalar_of condition.now)) (change_of moves.now)) }
{
    let plan = filter(workers.alloc, condition)?;
    over_both(workers, plan.get(), moves)
}

#[tactic(auto, unfolding(wh_meaning::specs::Query::eval))]
pub(crate) fn project_moves<R: Threads + Sync>(
    workers: &Workers<'_, R>,
    items: &[Scalar],
    moves: &Moves,
) -> Result<Option<Moves>, AllocError>
    ensures { IfOk result (λ found. change_found found
        ≡ carried_over (image_by (scalars_of items.now)) (change_of moves.now)) }
{
    let plan = project(workers.alloc, 0, items)?;
    over_both(workers, plan.get(), moves)
}

// What a plan gives over the rows that come, and over those that go.
fn over_both<R: Threads + Sync>(
    workers: &Workers<'_, R>,
    plan: &Physical,
    moves: &Moves,
) -> Result<Option<Moves>, AllocError>
    ensures { IfOk result (λ found. change_found found
        ≡ sided (eval (plan_of plan.now) (bag_of moves.now.comes.items ∷ []))
        (eval (plan_of plan.now) (bag_of moves.now.goes.items ∷ []))) }
{
    let Some(comes) = over(workers, plan, &[Source::Rows(&moves.comes)])? else {
        return Ok(None);
    };
    let Some(goes) = over(workers, plan, &[Source::Rows(&moves.goes)])? else {
        return Ok(None);
    };
    Ok(Some(Moves { comes, goes }))
}

pub(crate) fn unite_moves(left: Moves, right: Moves) -> Result<Moves, AllocError>
    ensures { IfOk result
        (λ found. change_of found ≡ summed (change_of left) (change_of right)) }
{
    let comes = united(left.comes, right.comes)?;
    let goes = united(left.goes, right.goes)?;
    Ok(Moves { comes, goes })
}

/// Rows, and behind them others.
pub(crate) fn united(rows: Vec<Row>, more: Vec<Row>) -> Result<Vec<Row>, AllocError>
    ensures { IfOk result
        (λ all. bag_of all.items ≡ plus (bag_of rows.items) (bag_of more.items)) }
{
    let all = appended(rows, more)?;
    Ok(all)
}

fn appended(rows: Vec<Row>, more: Vec<Row>) -> Result<Vec<Row>, AllocError>
    ensures { IfOk result (λ all. all.items ≡ rows.items ++ more.items) }
{
    let mut all = rows;
    for row in more {
        all.push(row)?;
    }
    Ok(all)
}

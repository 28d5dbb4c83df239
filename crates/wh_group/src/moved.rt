//! A group after rows came and rows went.
ghost use Rattle.std.specs.Option.{option_copied, option_map};
ghost use Rattle.wh_algebra.specs.View.{call_of, calls_of};
ghost use Rattle.wh_maintenance.specs.Standing as kept;
ghost use Rattle.wh_maintenance.specs.Standing.{moved_total, moved_totals, if_left, standing_at};
ghost use Rattle.wh_group.specs.Moved.{LeavesGroup, LeavesTotals, LeavesTotal};

use crate::moving::Moving;
use crate::standing::{Standing, Total, Totals};
use crate::tally::{Tallies, Tally};
use std::alloc::{AllocError, Global};
use wh_algebra::Call;
use wh_scalar::EvalFault;

/// What stands afterwards where a group stood, or none. A group without rows is gone.
pub(crate) fn moved(
    alloc: Global,
    calls: &[Call],
    was: Option<&Standing>,
    moving: &Moving,
) -> Result<Option<Standing>, EvalFault>
    ensures { LeavesGroup result (calls_of calls.now)
        (if_left (kept.moved (standing_at (calls_of calls.now) (option_copied was.entry))
        moving.now.0 moving.now.1)) }
{
    match was {
        Some(was) => moved_from(alloc, calls, was, moving),
        None => moved_from(alloc, calls, &Standing::begun(alloc, calls)?, moving),
    }
}

fn moved_from(
    alloc: Global,
    calls: &[Call],
    was: &Standing,
    moving: &Moving,
) -> Result<Option<Standing>, EvalFault>
    ensures { LeavesGroup result (calls_of calls.now)
        (if_left (kept.moved was.now moving.now.0 moving.now.1)) }
{
    moved_by(alloc, calls, was, &moving.came, &moving.went)
}

fn moved_by(
    alloc: Global,
    calls: &[Call],
    was: &Standing,
    came: &Tallies,
    went: &Tallies,
) -> Result<Option<Standing>, EvalFault>
    ensures { LeavesGroup result (calls_of calls.now)
        (if_left (kept.moved was.now came.now went.now)) }
{
    let rows = was
        .rows
        .checked_add(came.rows)
        .ok_or(EvalFault::OutOfMemory)?;
    let rows = rows.saturating_sub(went.rows);
    if rows == 0 {
        return Ok(None);
    }
    let mut totals = Totals::new(alloc);
    totals.reserve(was.totals.len())?;
    move_totals(
        calls,
        was.totals.as_slice(),
        &came.tallies,
        &went.tallies,
        &mut totals,
    )?;
    Ok(Some(Standing { rows, totals }))
}

#[cycle(move_totals)]
fn move_totals(
    calls: &[Call],
    was: &[Total],
    came: &[Tally],
    went: &[Tally],
    totals: &mut Totals,
) -> Result<(), EvalFault>
    ensures { LeavesTotals result (calls_of calls.now) (moved_totals was.now came.now went.now)
        totals.old.items totals.new.items }
{
    let (Some((total, was)), Some((more, came))) = (was.split_first(), came.split_first()) else {
        return Ok(());
    };
    let Some((fewer, went)) = went.split_first() else {
        return Ok(());
    };
    let (call, calls) = match calls.split_first() {
        Some((call, calls)) => (Some(call), calls),
        None => (None, calls),
    };
    let total = move_total(call, total, more, fewer)?;
    totals.push(total).map_err(AllocError::from)?;
    move_totals(calls, was, came, went, totals)
}

fn move_total(
    call: Option<&Call>,
    total: &Total,
    more: &Tally,
    fewer: &Tally,
) -> Result<Total, EvalFault>
    ensures { LeavesTotal result (option_map call_of (option_copied call.entry))
        (moved_total total.now more.now fewer.now) }
{
    let tally = Tally {
        sum: i128::from(total.sum)
            .checked_add(more.sum)
            .and_then(|sum| sum.checked_sub(fewer.sum))
            .ok_or(EvalFault::OutOfMemory)?,
        values: total
            .values
            .checked_add(more.values)
            .ok_or(EvalFault::OutOfMemory)?
            .saturating_sub(fewer.values),
    };
    kept_total(call, tally)
}

// A sum that a call shows has at most 18 digits, and then it fits.
fn kept_total(call: Option<&Call>, tally: Tally) -> Result<Total, EvalFault>
    ensures { LeavesTotal result (option_map call_of (option_copied call.entry)) tally }
{
    match i64::try_from(tally.sum) {
        Ok(sum) => Ok(Total {
            sum,
            values: tally.values,
        }),
        Err(_) => Err(match call {
            Some(Call::Sum(_)) if tally.values > 0 => EvalFault::NumberOutOfRange,
            _ => EvalFault::OutOfMemory,
        }),
    }
}

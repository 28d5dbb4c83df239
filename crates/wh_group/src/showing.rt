//! The row of a group.
ghost use Rattle.std.specs.Option.{option_copied, option_map};
ghost use Rattle.std.specs.Prelude.{◌++◌};
ghost use Rattle.wh_meaning.specs.Scalar.{ranged};
ghost use Rattle.wh_scalar.specs.View as scalars;
ghost use Rattle.wh_algebra.specs.View.{call_of, calls_of};
ghost use Rattle.wh_maintenance.specs.Standing.{answer};
ghost use Rattle.wh_aggregate.specs.Given.{Gives, Leaves};
ghost use Rattle.wh_group.specs.Settling.{group_row, shown_rows};

use crate::standing::{Standing, Total};
use std::alloc::{AllocError, Global};
use wh_algebra::Call;
use wh_scalar::EvalFault;
use wh_value::{Row, Value};

// No number is as great.
const LIMIT: u128 = 1_000_000_000_000_000_000;

/// Adds the row of a group, if there is one.
pub(crate) fn push_shown(
    alloc: Global,
    calls: &[Call],
    key: &Row,
    group: Option<&Standing>,
    rows: &mut Vec<Row>,
) -> Result<(), EvalFault>
    ensures { Leaves result rows.new.items (option_map (λ more. rows.old.items ++ more)
        (shown_rows (calls_of calls.now) key.now (option_copied group.entry))) }
{
    let Some(group) = group else {
        return Ok(());
    };
    let row = shown(alloc, calls, key, group)?;
    rows.push(row).map_err(AllocError::from)?;
    Ok(())
}

// The key, and then what the calls answer.
fn shown(alloc: Global, calls: &[Call], key: &Row, group: &Standing) -> Result<Row, EvalFault>
    ensures { Gives result (group_row (calls_of calls.now) key.now group.now.totals) }
{
    let mut row = key.copy(alloc)?;
    push_answers(calls, group.totals.as_slice(), &mut row)?;
    Ok(row)
}

fn push_answers(calls: &[Call], totals: &[Total], row: &mut Row) -> Result<(), EvalFault>
    ensures { Leaves result row.new (group_row (calls_of calls.now) row.old totals.now) }
{
    for i in 0..calls.len().min(totals.len()) {
        row.push(answer(&calls[i], &totals[i])?)?;
    }
    Ok(())
}

// What a call answers. The limit of a number is looked at here alone.
fn answer(call: &Call, total: &Total) -> Result<Value, EvalFault>
    ensures { scalars.Gives result (answer (call_of call.now) total.now) }
{
    match call {
        Call::Sum(_) if total.values == 0 => Ok(Value::Null),
        Call::Sum(_) => number(i128::from(total.sum)),
        Call::CountRows | Call::Count(_) => number(i128::from(total.values)),
    }
}

// A number of at most 18 digits.
fn number(number: i128) -> Result<Value, EvalFault>
    ensures { scalars.Gives result (ranged number) }
{
    match i64::try_from(number) {
        Ok(short) if number.unsigned_abs() < LIMIT => Ok(Value::Number(short)),
        _ => Err(EvalFault::NumberOutOfRange),
    }
}

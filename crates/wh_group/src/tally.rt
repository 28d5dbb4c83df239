//! What the rows that come to a group, or go from it, add up to.
ghost use Rattle.std.specs.Prelude.{◌≡◌};
ghost use Rattle.wh_value.specs.View.{value_of};
ghost use Rattle.wh_scalar.specs.View.{Gives};
ghost use Rattle.wh_algebra.specs.View.{call_of, calls_of};
ghost use Rattle.wh_aggregate.specs.Given.{Leaves};
ghost use Rattle.wh_group.specs.Tally.{counted, argument_of, tallied};

use std::alloc::{AllocError, Global};
use std::marker::Model;
use wh_algebra::Call;
use wh_scalar::EvalFault;
use wh_value::{Row, Value};

/// The sum of numbers, and how many values were added that aren't NULL.
#[derive(Debug, Drop)]
pub(crate) struct Tally {
    pub(crate) sum: i128,
    pub(crate) values: u64,
}

impl Model for Tally {
    ghost use Rattle.wh_meaning.specs.Query.{Total};
    ghost use Rattle.wh_aggregate.specs.Tally.{coded_total};

    ghost Value = { Total };

    ghost coded = { coded_total };

    ghost view = { λ t. record { sum = t.sum; values = t.values } };
}

impl Tally {
    ghost use Rattle.std.specs.Prelude.{◌≡◌, OnOk};
    ghost use Rattle.wh_value.specs.View.{value_of};
    ghost use Rattle.wh_meaning.specs.Query.{with_number};
    ghost use Rattle.wh_maintenance.specs.Standing.{nothing_yet};

    fn new() -> Tally
        ensures { result ≡ nothing_yet }
    {
        Tally { sum: 0, values: 0 }
    }

    // Each number has 64 bits, so that over less than 2^64 rows neither the sum nor the count
    // leaves its type.
    fn add(&mut self, value: &Value) -> Result<(), AllocError>
        ensures { OnOk result (self.new ≡ with_number (value_of value.now) self.old) }
    {
        if let Value::Null = value {
            return Ok(());
        }
        if let Value::Number(number) = value {
            self.sum = self.sum.checked_add(i128::from(*number)).ok_or(AllocError)?;
        }
        self.values = self.values.checked_add(1).ok_or(AllocError)?;
        Ok(())
    }
}

/// How many rows there are, and what each call adds up over them.
#[derive(Debug, Drop)]
pub(crate) struct Tallies {
    pub(crate) rows: u64,
    pub(crate) tallies: Vec<Tally>,
}

impl Model for Tallies {
    ghost use Rattle.wh_maintenance.specs.Standing.{Standing};
    ghost use Rattle.wh_group.specs.Standing.{coded_standing};

    ghost Value = { Standing };

    ghost coded = { coded_standing };

    ghost view = { λ t. record { rows = t.rows; totals = t.tallies.items } };
}

impl Tallies {
    ghost use Rattle.std.specs.Prelude.{◌≡◌, IfOk};
    ghost use Rattle.wh_algebra.specs.View.{calls_of};
    ghost use Rattle.wh_aggregate.specs.Given.{Leaves};
    ghost use Rattle.wh_group.specs.Tally.{begun_standing, stepped};

    /// Of no rows.
    pub(crate) fn new(alloc: Global, calls: &[Call]) -> Result<Tallies, AllocError>
        ensures { IfOk result (λ tallies. tallies ≡ begun_standing (calls_of calls.now)) }
    {
        let mut tallies = Vec::with_capacity(alloc, calls.len())?;
        for _ in calls {
            tallies.push(Tally::new())?;
        }
        Ok(Tallies { rows: 0, tallies })
    }

    /// One row more.
    pub(crate) fn add_row(
        &mut self,
        alloc: Global,
        calls: &[Call],
        row: &Row,
    ) -> Result<(), EvalFault>
        ensures { Leaves result self.new (stepped (calls_of calls.now) row.now self.old) }
    {
        add_row(alloc, calls, row, &mut self.tallies)?;
        self.rows = self.rows.checked_add(1).ok_or(EvalFault::OutOfMemory)?;
        Ok(())
    }
}

fn add_row(alloc: Global, calls: &[Call], row: &Row, tallies: &mut [Tally]) -> Result<(), EvalFault>
    ensures { Leaves result tallies.new (tallied (calls_of calls.now) row.now tallies.old) }
{
    let Some((call, calls)) = calls.split_first() else {
        return Ok(());
    };
    let Some((tally, tallies)) = tallies.split_first_mut() else {
        return Ok(());
    };
    tally.add(&argument(alloc, call, row)?)?;
    add_row(alloc, calls, row, tallies)
}

// What a row gives to a call: to a COUNT nothing that has a sum.
fn argument(alloc: Global, call: &Call, row: &Row) -> Result<Value, EvalFault>
    ensures { Gives result (argument_of (call_of call.now) row.now) }
{
    match call {
        Call::Sum(scalar) => scalar.eval(alloc, row),
        Call::CountRows => Ok(Value::Bool(true)),
        Call::Count(scalar) => Ok(counted(scalar.eval(alloc, row)?)),
    }
}

fn counted(value: Value) -> Value
    ensures { value_of result ≡ counted (value_of value) }
{
    match value {
        Value::Null => Value::Null,
        _ => Value::Bool(true),
    }
}

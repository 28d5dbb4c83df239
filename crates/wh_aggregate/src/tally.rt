ghost use Rattle.wh_meaning.specs.Scalar.{ranged};
ghost use Rattle.wh_scalar.specs.View.{Gives};
ghost use Rattle.wh_algebra.specs.View.{call_of};
ghost use Rattle.wh_aggregate.specs.Tally.{argument_of};

use std::alloc::{AllocError, Global};
use std::marker::Model;
use wh_algebra::Call;
use wh_scalar::EvalFault;
use wh_value::{Row, Value};

// No number is as great.
const LIMIT: u128 = 1_000_000_000_000_000_000;

/// The sum of numbers, and how many values were added that aren't NULL.
#[derive(Debug, Drop)]
pub(crate) struct Tally {
    sum: i128,
    values: u64,
}

impl Model for Tally {
    ghost use Rattle.wh_meaning.specs.Query.{Total};
    ghost use Rattle.wh_aggregate.specs.Tally.{coded_total};

    ghost Value = { Total };

    ghost coded = { coded_total };

    ghost view = { λ t. record { sum = t.sum; values = t.values } };
}

impl Tally {
    ghost use Rattle.std.specs.Prelude.{◌≡◌, OnOk};
    ghost use Rattle.wh_value.specs.View.{value_of};
    ghost use Rattle.wh_meaning.specs.Query.{with_number};
    ghost use Rattle.wh_algebra.specs.View.{call_of};
    ghost use Rattle.wh_scalar.specs.View.{Gives};
    ghost use Rattle.wh_aggregate.specs.Tally.{nothing, both_totals, answer};

    pub(crate) fn new() -> Tally
        ensures { result ≡ nothing }
    {
        Tally { sum: 0, values: 0 }
    }

    /// Adds a value. Each number has 64 bits, so that over less than 2^64 rows neither the sum nor
    /// the count leaves its type.
    pub(crate) fn add(&mut self, value: &Value) -> Result<(), AllocError>
        ensures { OnOk result (self.new ≡ with_number (value_of value.now) self.old) }
    {
        if let Value::Null = value {
            return Ok(());
        }
        if let Value::Number(number) = value {
            self.sum = self.sum.checked_add(i128::from(*number)).ok_or(AllocError)?;
        }
        self.values = self.values.checked_add(1).ok_or(AllocError)?;
        Ok(())
    }

    /// Adds what another has added up.
    pub(crate) fn join(&mut self, other: &Tally) -> Result<(), AllocError>
        ensures { OnOk result (self.new ≡ both_totals self.old other.now) }
    {
        self.sum = self.sum.checked_add(other.sum).ok_or(AllocError)?;
        self.values = self.values.checked_add(other.values).ok_or(AllocError)?;
        Ok(())
    }

    /// What a call answers. The limit of a number is looked at here alone.
    pub(crate) fn answer(&self, call: &Call) -> Result<Value, EvalFault>
        ensures { Gives result (answer (call_of call.now) self.now) }
    {
        match call {
            Call::Sum(_) if self.values == 0 => Ok(Value::Null),
            Call::Sum(_) => number(self.sum),
            Call::CountRows | Call::Count(_) => number(i128::from(self.values)),
        }
    }
}

// A number of at most 18 digits.
fn number(number: i128) -> Result<Value, EvalFault>
    ensures { Gives result (ranged number) }
{
    match i64::try_from(number) {
        Ok(short) if number.unsigned_abs() < LIMIT => Ok(Value::Number(short)),
        _ => Err(EvalFault::NumberOutOfRange),
    }
}

/// What a row gives to a call.
pub(crate) fn argument(alloc: Global, call: &Call, row: &Row) -> Result<Value, EvalFault>
    ensures { Gives result (argument_of (call_of call.now) row.now) }
{
    match call {
        Call::Sum(scalar) | Call::Count(scalar) => scalar.eval(alloc, row),
        Call::CountRows => Ok(Value::Bool(true)),
    }
}

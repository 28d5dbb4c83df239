//! Arithmetic on values: numbers have at most 18 digits, and with NULL it gives NULL.
ghost use Rattle.std.specs.Prelude.{◌+ℤ◌, ◌-ℤ◌, ◌*ℤ◌};
ghost use Rattle.wh_value.specs.View.{value_of};
ghost use Rattle.wh_meaning.specs.Scalar.{computed, negated};
ghost use Rattle.wh_scalar.specs.View.{Gives};

use crate::EvalFault;
use wh_value::Value;

// No number is as great.
const LIMIT: u64 = 1_000_000_000_000_000_000;

pub(crate) fn added(a: &Value, b: &Value) -> Result<Value, EvalFault>
    ensures { Gives result (computed (λ x y. x +ℤ y) (value_of a.now) (value_of b.now)) }
{
    let (Value::Number(x), Value::Number(y)) = (a, b) else {
        return Ok(Value::Null);
    };
    match x.checked_add(*y) {
        Some(sum) if sum.unsigned_abs() < LIMIT => Ok(Value::Number(sum)),
        _ => Err(EvalFault::NumberOutOfRange),
    }
}

pub(crate) fn subtracted(a: &Value, b: &Value) -> Result<Value, EvalFault>
    ensures { Gives result (computed (λ x y. x -ℤ y) (value_of a.now) (value_of b.now)) }
{
    let (Value::Number(x), Value::Number(y)) = (a, b) else {
        return Ok(Value::Null);
    };
    match x.checked_sub(*y) {
        Some(difference) if difference.unsigned_abs() < LIMIT => Ok(Value::Number(difference)),
        _ => Err(EvalFault::NumberOutOfRange),
    }
}

pub(crate) fn multiplied(a: &Value, b: &Value) -> Result<Value, EvalFault>
    ensures { Gives result (computed (λ x y. x *ℤ y) (value_of a.now) (value_of b.now)) }
{
    let (Value::Number(x), Value::Number(y)) = (a, b) else {
        return Ok(Value::Null);
    };
    match x.checked_mul(*y) {
        Some(product) if product.unsigned_abs() < LIMIT => Ok(Value::Number(product)),
        _ => Err(EvalFault::NumberOutOfRange),
    }
}

pub(crate) fn negated(a: &Value) -> Result<Value, EvalFault>
    ensures { Gives result (negated (value_of a.now)) }
{
    let Value::Number(x) = a else {
        return Ok(Value::Null);
    };
    match x.checked_neg() {
        Some(number) if number.unsigned_abs() < LIMIT => Ok(Value::Number(number)),
        _ => Err(EvalFault::NumberOutOfRange),
    }
}

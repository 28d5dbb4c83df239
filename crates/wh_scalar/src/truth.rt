//! Comparisons and three-valued logic.
ghost use Rattle.std.specs.Prelude.{◌≡◌};
ghost use Rattle.wh_value.specs.View.{value_of};
ghost use Rattle.wh_meaning.specs.Scalar as meaning;

use std::cmp::Ordering;
use wh_value::{Comparison, Value};

pub(crate) fn compared(comparison: Comparison, a: &Value, b: &Value) -> Value
    ensures { value_of result ≡ meaning.compared comparison (value_of a.now) (value_of b.now) }
{
    if is_null(a) || is_null(b) {
        return Value::Null;
    }
    Value::Bool(meets(comparison, a.cmp(b)))
}

pub(crate) fn meets(comparison: Comparison, order: Ordering) -> bool
    ensures { result ≡ meaning.meets comparison order }
{
    match comparison {
        Comparison::Equal => order.is_eq(),
        Comparison::Unequal => order.is_ne(),
        Comparison::Less => order.is_lt(),
        Comparison::LessOrEqual => order.is_le(),
        Comparison::Greater => order.is_gt(),
        Comparison::GreaterOrEqual => order.is_ge(),
    }
}

pub(crate) fn conjoined(a: &Value, b: &Value) -> Value
    ensures { value_of result ≡ meaning.conjoined (value_of a.now) (value_of b.now) }
{
    match (a, b) {
        (Value::Bool(false), _) | (_, Value::Bool(false)) => Value::Bool(false),
        (Value::Bool(true), Value::Bool(true)) => Value::Bool(true),
        _ => Value::Null,
    }
}

pub(crate) fn disjoined(a: &Value, b: &Value) -> Value
    ensures { value_of result ≡ meaning.disjoined (value_of a.now) (value_of b.now) }
{
    match (a, b) {
        (Value::Bool(true), _) | (_, Value::Bool(true)) => Value::Bool(true),
        (Value::Bool(false), Value::Bool(false)) => Value::Bool(false),
        _ => Value::Null,
    }
}

pub(crate) fn inverted(a: &Value) -> Value
    ensures { value_of result ≡ meaning.inverted (value_of a.now) }
{
    match a {
        Value::Bool(truth) => Value::Bool(!*truth),
        _ => Value::Null,
    }
}

pub(crate) fn is_null(a: &Value) -> bool
    ensures { result ≡ meaning.is_null (value_of a.now) }
{
    matches!(a, Value::Null)
}

use crate::Text;
use std::alloc::{AllocError, Global};
use std::cmp::Ordering;

/// What a row holds for a column. The variants stand in the value order: NULL is last.
#[derive(Debug, Drop, PartialEq, Eq, PartialOrd, Ord)]
pub enum Value {
    /// A whole number; statements and files give at most 18 digits.
    Number(i64),
    Bool(bool),
    Text(Text),
    Null,
}

impl Value {
    ghost use Rattle.std.specs.Prelude.{◌≡◌, IfOk};
    ghost use Rattle.wh_value.specs.View.{value_of};

    /// An equal value. A text shares its bytes.
    pub fn copy(&self, alloc: Global) -> Result<Value, AllocError>
        ensures { IfOk result (λ copy. value_of copy ≡ value_of self.now) }
    {
        match self {
            Value::Number(number) => Ok(Value::Number(*number)),
            Value::Bool(truth) => Ok(Value::Bool(*truth)),
            Value::Text(text) => Ok(Value::Text(text.copy(alloc)?)),
            Value::Null => Ok(Value::Null),
        }
    }
}

ghost use Rattle.std.specs.Prelude.{◌≡◌};
ghost use Rattle.wh_value.specs.Value.{value_cmp};
ghost use Rattle.wh_value.specs.View.{value_of};

/// The value order, as `cmp` tells it: numbers first, which most values are.
pub fn cmp_values(x: &Value, y: &Value) -> Ordering
    ensures { result ≡ value_cmp (value_of x.now) (value_of y.now) }
{
    match (x, y) {
        (Value::Number(x), Value::Number(y)) => x.cmp(y),
        _ => x.cmp(y),
    }
}

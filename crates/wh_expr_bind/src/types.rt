ghost use Rattle.std.specs.Prelude.{◌≡◌};
ghost use Rattle.wh_value.specs.View.{value_of, type_of};
ghost use Rattle.wh_naming.specs.Typing as naming;
ghost use Rattle.wh_expr_bind.specs.View.{type_of_option};

use wh_value::{ColumnType, Value};

/// Whether two types fit each other. None is the type of NULL, which fits every type.
pub fn alike(a: Option<ColumnType>, b: Option<ColumnType>) -> bool
    ensures { result ≡ naming.alike (type_of_option a) (type_of_option b) }
{
    match (a, b) {
        (Some(a), Some(b)) => same_type(a, b),
        _ => true,
    }
}

fn same_type(a: ColumnType, b: ColumnType) -> bool
    ensures { result ≡ naming.same_type (type_of a) (type_of b) }
{
    match (a, b) {
        (ColumnType::Number, ColumnType::Number)
        | (ColumnType::Varchar, ColumnType::Varchar)
        | (ColumnType::Boolean, ColumnType::Boolean) => true,
        _ => false,
    }
}

/// The type of a value.
pub fn value_type(value: &Value) -> Option<ColumnType>
    ensures { type_of_option result ≡ naming.value_type (value_of value.now) }
{
    match value {
        Value::Number(_) => Some(ColumnType::Number),
        Value::Bool(_) => Some(ColumnType::Boolean),
        Value::Text(_) => Some(ColumnType::Varchar),
        Value::Null => None,
    }
}

ghost use Rattle.std.specs.Prelude.{◌≡◌, map};
ghost use Rattle.wh_value.specs.Fits.{fits, row_fits};
ghost use Rattle.wh_value.specs.View.{column_of, type_of, value_of};

use crate::{Column, ColumnType, Row, Value};

/// Whether a row has a value for each column, of its type. NULL fits every type.
pub fn row_fits(columns: &[Column], row: &Row) -> bool
    ensures { result ≡ row_fits (map column_of columns.now) row.now }
{
    values_fit(columns, row.values())
}

fn values_fit(columns: &[Column], values: &[Value]) -> bool
    ensures { result ≡ row_fits (map column_of columns.now) (map value_of values.now) }
{
    if columns.len() != values.len() {
        return false;
    }
    for place in 0..columns.len() {
        if !fits(columns[place].column_type, &values[place]) {
            return false;
        }
    }
    true
}

fn fits(column_type: ColumnType, value: &Value) -> bool
    ensures { result ≡ fits (type_of column_type) (value_of value.now) }
{
    match value {
        Value::Number(_) => column_type == ColumnType::Number,
        Value::Bool(_) => column_type == ColumnType::Boolean,
        Value::Text(_) => column_type == ColumnType::Varchar,
        Value::Null => true,
    }
}

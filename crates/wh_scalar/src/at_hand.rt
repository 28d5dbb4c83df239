//! Values that need no evaluation, where they stand.
ghost use Rattle.std.specs.Prelude.{◌≡◌, Some, unwrap_or, slice_get, IfSome};
ghost use Rattle.wh_value.specs.Value.{Null};
ghost use Rattle.wh_value.specs.View.{value_of};
ghost use Rattle.wh_meaning.specs.Scalar.{val};
ghost use Rattle.wh_scalar.specs.View.{scalar_of};

use crate::Scalar;
use wh_value::{Row, Value};

/// The value of a constant or of a column that the row has.
#[tactic(auto, unfolding(wh_meaning::specs::Scalar::val))]
fn at_hand<'a>(scalar: &'a Scalar, row: &'a Row) -> Option<&'a Value>
    ensures { IfSome result (λ value.
        val (scalar_of scalar.now) row.now ≡ Some (value_of value.now)) }
{
    match scalar {
        Scalar::Const(value) => Some(value),
        Scalar::Column(place) => column_at_hand(row, *place),
        _ => None,
    }
}

/// The value of a column that the row has.
pub(crate) fn column_at_hand(row: &Row, place: u32) -> Option<&Value>
    ensures { IfSome result (λ value.
        unwrap_or (slice_get row.now place) Null ≡ value_of value.now) }
{
    match row.values().get(place as usize) {
        Some(value) => Some(value),
        None => None,
    }
}

/// The values of both, where neither needs evaluation.
pub(crate) fn both_at_hand<'a>(
    x: &'a Scalar,
    y: &'a Scalar,
    row: &'a Row,
) -> Option<(&'a Value, &'a Value)>
    ensures first { IfSome result (λ both.
        val (scalar_of x.now) row.now ≡ Some (value_of both.0.now)) }
    ensures second { IfSome result (λ both.
        val (scalar_of y.now) row.now ≡ Some (value_of both.1.now)) }
{
    let a = at_hand(x, row)?;
    let b = at_hand(y, row)?;
    Some((a, b))
}

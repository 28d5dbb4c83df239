ghost use Rattle.std.specs.Prelude.{◌≡◌, Some, map, option_map, slice_get};
ghost use Rattle.std.specs.Ordering.{is_eq, is_lt, is_gt};
ghost use Rattle.wh_value.specs.Value.{value_cmp};
ghost use Rattle.wh_value.specs.View.{value_of};
ghost use Rattle.wh_meaning.specs.Scalar as meaning;
ghost use Rattle.wh_scalar.specs.View.{scalar_of};
ghost use Rattle.wh_part.specs.Holding as holding;
ghost use Rattle.wh_part.specs.Holding.{sides_of};

use crate::{Bounds, PartMeta};
use wh_scalar::Scalar;
use wh_value::{Comparison, Value, cmp_values};

// No number is as great.
const LIMIT: u64 = 1_000_000_000_000_000_000;

impl PartMeta {
    ghost use Rattle.std.specs.Prelude.{◌≡◌};
    ghost use Rattle.std.specs.Bool.{OnFalse};
    ghost use Rattle.wh_frame.specs.Partition as machine;
    ghost use Rattle.wh_scalar.specs.View.{scalar_of};
    ghost use Rattle.wh_part.specs.Meta.{IsMetaOf};
    ghost use Rattle.wh_part.specs.Holding as holding;
    ghost use Rattle.wh_part.specs.Holding.{columns_of, RejectsEach};

    /// Whether the condition may be TRUE, or have no value, on a row of the partition. At `false` a
    /// scan passes over the partition.
    pub fn may_hold(&self, condition: &Scalar) -> bool
        ensures rejected { OnFalse result ((p : machine.Partition) → IsMetaOf self.now p
            → RejectsEach (scalar_of condition.now) p) }
        ensures rule { result ≡ holding.may_hold (columns_of self.now) (scalar_of condition.now) }
    {
        may_fail(condition) || may_be(&self.columns, condition)
    }
}

/// Whether it may have no value on some row.
#[tactic(auto, unfolding(crate::specs::Holding::may_fail))]
fn may_fail(scalar: &Scalar) -> bool
    ensures { result ≡ holding.may_fail (scalar_of scalar.now) }
{
    match scalar {
        Scalar::Const(_) | Scalar::Column(_) => false,
        Scalar::Neg(x) => negated(x.get()).is_none(),
        Scalar::Add(..) | Scalar::Sub(..) | Scalar::Mul(..) => true,
        Scalar::Compare(_, x, y) | Scalar::And(x, y) | Scalar::Or(x, y) => {
            may_fail(x.get()) || may_fail(y.get())
        }
        Scalar::Not(x) | Scalar::IsNull(x) => may_fail(x.get()),
    }
}

/// What a minus sign makes of a constant, where that is a value.
fn negated(x: &Scalar) -> Option<Value>
    ensures { option_map value_of result ≡ holding.constant_of (meaning.Neg (scalar_of x.now)) }
{
    match x {
        Scalar::Const(Value::Number(number)) => match number.checked_neg() {
            Some(number) if number.unsigned_abs() < LIMIT => Some(Value::Number(number)),
            _ => None,
        },
        Scalar::Const(_) => Some(Value::Null),
        _ => None,
    }
}

/// Whether the condition may be TRUE on a row whose values lie within the bounds.
#[tactic(auto, unfolding(crate::specs::Holding::may_be))]
fn may_be(columns: &[Bounds], condition: &Scalar) -> bool
    ensures { result ≡ holding.may_be (map sides_of columns.now) (scalar_of condition.now) }
{
    match condition {
        Scalar::Compare(comparison, x, y) => may_compare(columns, *comparison, x.get(), y.get()),
        Scalar::And(x, y) => may_be(columns, x.get()) && may_be(columns, y.get()),
        Scalar::Or(x, y) => may_be(columns, x.get()) || may_be(columns, y.get()),
        Scalar::IsNull(x) => may_be_null(columns, x.get()),
        _ => true,
    }
}

fn may_compare(columns: &[Bounds], comparison: Comparison, x: &Scalar, y: &Scalar) -> bool
    ensures { result ≡ holding.may_compare (map sides_of columns.now) comparison
        (scalar_of x.now) (scalar_of y.now) }
{
    may_compare_column(columns, comparison, x, y)
        && may_compare_column(columns, converse_of(comparison), y, x)
}

/// Whether the first side may meet the comparison, as a column that is compared with a constant.
fn may_compare_column(columns: &[Bounds], comparison: Comparison, x: &Scalar, y: &Scalar) -> bool
    ensures { result ≡ holding.may_compare_column (map sides_of columns.now) comparison
        (scalar_of x.now) (scalar_of y.now) }
{
    match x {
        Scalar::Column(place) => may_compare_constant(columns, *place as usize, comparison, y),
        _ => true,
    }
}

fn may_compare_constant(
    columns: &[Bounds],
    place: usize,
    comparison: Comparison,
    y: &Scalar,
) -> bool
    ensures { result ≡ holding.may_compare_within
        (slice_get (map sides_of columns.now) place) comparison
        (holding.constant_of (scalar_of y.now)) }
{
    match y {
        Scalar::Const(value) => may_compare_at(columns, place, comparison, value),
        Scalar::Neg(y) => match negated(y.get()) {
            Some(value) => may_compare_at(columns, place, comparison, &value),
            None => true,
        },
        _ => true,
    }
}

/// The comparison with its sides exchanged.
fn converse_of(comparison: Comparison) -> Comparison
    ensures { result ≡ holding.converse_of comparison }
{
    match comparison {
        Comparison::Less => Comparison::Greater,
        Comparison::LessOrEqual => Comparison::GreaterOrEqual,
        Comparison::Greater => Comparison::Less,
        Comparison::GreaterOrEqual => Comparison::LessOrEqual,
        Comparison::Equal | Comparison::Unequal => comparison,
    }
}

fn may_compare_at(columns: &[Bounds], place: usize, comparison: Comparison, value: &Value) -> bool
    ensures { result ≡ holding.may_compare_within
        (slice_get (map sides_of columns.now) place) comparison (Some (value_of value.now)) }
{
    match columns.get(place) {
        Some(bounds) => {
            !is_null(value) && !is_null(&bounds.least) && may_meet(bounds, comparison, value)
        }
        None => true,
    }
}

/// Whether a value within the bounds may meet the comparison with a value.
fn may_meet(bounds: &Bounds, comparison: Comparison, value: &Value) -> bool
    ensures { result ≡ holding.may_meet (sides_of bounds.now) comparison (value_of value.now) }
{
    match comparison {
        Comparison::Equal => {
            !is_after(&bounds.least, value) && !is_after(value, &bounds.greatest)
        }
        Comparison::Unequal => {
            !(is_same(&bounds.least, value) && is_same(&bounds.greatest, value))
        }
        Comparison::Less => is_before(&bounds.least, value),
        Comparison::LessOrEqual => !is_after(&bounds.least, value),
        Comparison::Greater => is_before(value, &bounds.greatest),
        Comparison::GreaterOrEqual => !is_after(value, &bounds.greatest),
    }
}

fn may_be_null(columns: &[Bounds], x: &Scalar) -> bool
    ensures { result ≡ holding.may_be_null (map sides_of columns.now) (scalar_of x.now) }
{
    match x {
        Scalar::Column(place) => may_be_null_at(columns, *place as usize),
        _ => true,
    }
}

fn may_be_null_at(columns: &[Bounds], place: usize) -> bool
    ensures { result ≡ holding.has_null (slice_get (map sides_of columns.now) place) }
{
    match columns.get(place) {
        Some(bounds) => is_null(&bounds.greatest),
        None => true,
    }
}

fn is_null(value: &Value) -> bool
    ensures { result ≡ meaning.is_null (value_of value.now) }
{
    matches!(value, Value::Null)
}

fn is_same(a: &Value, b: &Value) -> bool
    ensures { result ≡ is_eq (value_cmp (value_of a.now) (value_of b.now)) }
{
    cmp_values(a, b).is_eq()
}

fn is_before(a: &Value, b: &Value) -> bool
    ensures { result ≡ is_lt (value_cmp (value_of a.now) (value_of b.now)) }
{
    cmp_values(a, b).is_lt()
}

fn is_after(a: &Value, b: &Value) -> bool
    ensures { result ≡ is_gt (value_cmp (value_of a.now) (value_of b.now)) }
{
    cmp_values(a, b).is_gt()
}

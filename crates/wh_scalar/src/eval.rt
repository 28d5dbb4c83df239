use crate::arithmetic::{added, multiplied, negated, subtracted};
use crate::at_hand::both_at_hand;
use crate::truth::{compared, conjoined, disjoined, inverted, is_null};
use crate::{EvalFault, Scalar};
use std::alloc::Global;
use wh_value::{Row, Value};

impl Scalar {
    ghost use Rattle.wh_meaning.specs.Scalar.{val};
    ghost use Rattle.wh_scalar.specs.View.{scalar_of, Gives};

    /// The value on a row. Each part is evaluated, so a number of more than 18 digits anywhere in
    /// it leaves it without a value. A column that the row lacks is NULL.
    #[cycle(eval)]
    #[tactic(auto, unfolding(wh_meaning::specs::Scalar::val))]
    pub fn eval(&self, alloc: Global, row: &Row) -> Result<Value, EvalFault>
        ensures { Gives result (val (scalar_of self.now) row.now) }
    {
        match self {
            Scalar::Const(value) => Ok(value.copy(alloc)?),
            Scalar::Column(place) => cell(alloc, row, *place),
            Scalar::Neg(x) => negated(&x.get().eval(alloc, row)?),
            Scalar::Add(x, y)
            | Scalar::Sub(x, y)
            | Scalar::Mul(x, y)
            | Scalar::Compare(_, x, y)
            | Scalar::And(x, y)
            | Scalar::Or(x, y) => {
                if let Some((a, b)) = both_at_hand(x.get(), y.get(), row) {
                    return of_sides(self, a, b);
                }
                let a = x.get().eval(alloc, row)?;
                with_second(alloc, y.get(), self, &a, row)
            }
            Scalar::Not(x) => Ok(inverted(&x.get().eval(alloc, row)?)),
            Scalar::IsNull(x) => Ok(Value::Bool(is_null(&x.get().eval(alloc, row)?))),
        }
    }
}

ghost use Rattle.std.specs.Prelude.{Some, unwrap_or, slice_get};
ghost use Rattle.wh_meaning.specs.Scalar.{of_two, val};
ghost use Rattle.wh_value.specs.Value.{Null};
ghost use Rattle.wh_value.specs.View.{value_of};
ghost use Rattle.wh_scalar.specs.View.{scalar_of, Gives, of_sides};

// A scalar of two sides, behind the value of the first.
#[cycle(eval)]
fn with_second(
    alloc: Global,
    y: &Scalar,
    scalar: &Scalar,
    a: &Value,
    row: &Row,
) -> Result<Value, EvalFault>
    ensures { Gives result (of_two (of_sides (scalar_of scalar.now)) (Some (value_of a.now))
        (val (scalar_of y.now) row.now)) }
{
    let b = y.eval(alloc, row)?;
    of_sides(scalar, a, &b)
}

// The operator of a scalar of two sides, on their values.
fn of_sides(scalar: &Scalar, a: &Value, b: &Value) -> Result<Value, EvalFault>
    ensures { Gives result
        (of_sides (scalar_of scalar.now) (value_of a.now) (value_of b.now)) }
{
    match scalar {
        Scalar::Add(..) => added(a, b),
        Scalar::Sub(..) => subtracted(a, b),
        Scalar::Mul(..) => multiplied(a, b),
        Scalar::Compare(comparison, ..) => Ok(compared(*comparison, a, b)),
        Scalar::And(..) => Ok(conjoined(a, b)),
        _ => Ok(disjoined(a, b)),
    }
}

// The value of a column.
fn cell(alloc: Global, row: &Row, place: u32) -> Result<Value, EvalFault>
    ensures { Gives result (Some (unwrap_or (slice_get row.now place) Null)) }
{
    match row.values().get(place as usize) {
        Some(value) => Ok(value.copy(alloc)?),
        None => Ok(Value::Null),
    }
}

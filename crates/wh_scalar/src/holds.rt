//! Conditions: whether a scalar is TRUE on a row, without its value where that is at hand.
ghost use Rattle.std.specs.Prelude.{◌≡◌};
ghost use Rattle.wh_meaning.specs.Scalar as meaning;
ghost use Rattle.wh_value.specs.View.{value_of};

use crate::at_hand::both_at_hand;
use crate::truth::{compared, meets};
use crate::{EvalFault, Scalar};
use std::alloc::Global;
use wh_value::{Comparison, Row, Value};

impl Scalar {
    ghost use Rattle.std.specs.Prelude.{◌≡◌, Some, option_map, IfSome};
    ghost use Rattle.wh_meaning.specs.Scalar as meaning;
    ghost use Rattle.wh_meaning.specs.Scalar.{val};
    ghost use Rattle.wh_scalar.specs.View.{scalar_of, Tells};

    /// Whether the scalar is TRUE on a row. Each part of it is evaluated, as by `eval`.
    #[cycle(holds)]
    pub fn holds(&self, alloc: Global, row: &Row) -> Result<bool, EvalFault>
        ensures { Tells result (val (scalar_of self.now) row.now) }
    {
        match self.truth_at_hand(row) {
            Some(truth) => Ok(truth),
            None => self.evaluated_truth(alloc, row),
        }
    }

    // Apart from `holds`, so that what is at hand takes no room for values.
    #[cycle(holds)]
    #[tactic(auto, unfolding(wh_meaning::specs::Scalar::val))]
    fn evaluated_truth(&self, alloc: Global, row: &Row) -> Result<bool, EvalFault>
        ensures { Tells result (val (scalar_of self.now) row.now) }
    {
        match self {
            Scalar::And(x, y) => {
                let a = x.get().holds(alloc, row)?;
                let b = y.get().holds(alloc, row)?;
                Ok(a && b)
            }
            Scalar::Or(x, y) => {
                let a = x.get().holds(alloc, row)?;
                let b = y.get().holds(alloc, row)?;
                Ok(a || b)
            }
            _ => Ok(is_true(&self.eval(alloc, row)?)),
        }
    }

    // A comparison of columns and constants.
    #[tactic(auto, unfolding(wh_meaning::specs::Scalar::val))]
    fn truth_at_hand(&self, row: &Row) -> Option<bool>
        ensures { IfSome result (λ truth.
            option_map meaning.is_true (val (scalar_of self.now) row.now) ≡ Some truth) }
    {
        match self {
            Scalar::Compare(comparison, x, y) => {
                let (a, b) = both_at_hand(x.get(), y.get(), row)?;
                Some(is_met(*comparison, a, b))
            }
            _ => None,
        }
    }
}

// Whether a comparison is TRUE.
fn is_met(comparison: Comparison, a: &Value, b: &Value) -> bool
    ensures { result ≡ meaning.is_true
        (meaning.compared comparison (value_of a.now) (value_of b.now)) }
{
    match (a, b) {
        (Value::Number(x), Value::Number(y)) => meets(comparison, x.cmp(y)),
        _ => is_true(&compared(comparison, a, b)),
    }
}

fn is_true(value: &Value) -> bool
    ensures { result ≡ meaning.is_true (value_of value.now) }
{
    matches!(value, Value::Bool(true))
}

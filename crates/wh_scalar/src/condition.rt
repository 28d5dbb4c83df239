//! A condition that many rows are tested by.
use crate::at_hand::column_at_hand;
use crate::truth::meets;
use crate::{EvalFault, Scalar};
use std::alloc::Global;
use std::marker::Model;
use wh_value::{Comparison, Row, Value};

/// A scalar that rows are tested by. It is looked at once: where it compares a column with a
/// number, a row is tested where its value stands.
#[derive(Debug, Drop)]
pub struct Condition<'a> {
    scalar: &'a Scalar,
    quick: Option<NumberTest>,
}

/// Whether the number in a column meets a comparison with another one.
#[derive(Clone, Copy, Debug)]
struct NumberTest {
    comparison: Comparison,
    place: u32,
    number: i64,
}

impl<'a> Model for Condition<'a> {
    ghost use Rattle.std.specs.Prelude.{◌≡◌, IfSome};
    ghost use Rattle.std.specs.Coded.{codes};
    ghost use Rattle.wh_scalar.specs.contracts.scalar.Scalar.{the_row};
    ghost use Rattle.wh_scalar.specs.declared.scalar.Scalar.{Scalar};
    ghost use Rattle.wh_scalar.specs.View.{scalar_of};
    ghost use Rattle.wh_scalar.specs.Condition.{compared_by};

    ghost Value = { Scalar };

    ghost coded = { Prim.hlevel (codes, the_row.coded) };

    ghost view = { λ c. c.scalar.now };

    ghost invariant = { λ c. IfSome c.quick (λ test. scalar_of c.scalar.now ≡ compared_by test) };
}

impl<'a> Condition<'a> {
    ghost use Rattle.std.specs.Prelude.{◌≡◌, Some, option_map, IfSome};
    ghost use Rattle.wh_meaning.specs.Scalar.{is_true, val};
    ghost use Rattle.wh_scalar.specs.View.{scalar_of, Tells};

    pub fn new(scalar: &'a Scalar) -> Condition<'a>
        ensures { result ≡ scalar.now }
    {
        let quick = number_test(scalar);
        Condition { scalar, quick }
    }

    /// Whether the scalar is TRUE on a row, as `Scalar::holds` tells it.
    pub fn holds(&self, alloc: Global, row: &Row) -> Result<bool, EvalFault>
        ensures { Tells result (val (scalar_of self.now) row.now) }
    {
        if let Some(truth) = self.truth_at_hand(row) {
            return Ok(truth);
        }
        self.scalar.holds(alloc, row)
    }

    fn truth_at_hand(&self, row: &Row) -> Option<bool>
        ensures { IfSome result (λ truth. option_map is_true (val (scalar_of self.now) row.now)
            ≡ Some truth) }
    {
        self.quick?.truth_on(row)
    }
}

ghost use Rattle.std.specs.Prelude.{◌≡◌, IfSome};
ghost use Rattle.wh_meaning.specs.Scalar.{Compare};
ghost use Rattle.wh_scalar.specs.View.{scalar_of};
ghost use Rattle.wh_scalar.specs.Condition.{compared_by};

fn number_test(scalar: &Scalar) -> Option<NumberTest>
    ensures { IfSome result (λ test. scalar_of scalar.now ≡ compared_by test) }
{
    match scalar {
        Scalar::Compare(comparison, x, y) => number_test_of(*comparison, x.get(), y.get()),
        _ => None,
    }
}

fn number_test_of(comparison: Comparison, x: &Scalar, y: &Scalar) -> Option<NumberTest>
    ensures { IfSome result (λ test.
        Compare comparison (scalar_of x.now) (scalar_of y.now) ≡ compared_by test) }
{
    match (x, y) {
        (Scalar::Column(place), Scalar::Const(Value::Number(number))) => Some(NumberTest {
            comparison,
            place: *place,
            number: *number,
        }),
        _ => None,
    }
}

impl NumberTest {
    ghost use Rattle.std.specs.Prelude.{◌≡◌, Some, option_map, IfSome};
    ghost use Rattle.wh_meaning.specs.Scalar.{is_true, val};
    ghost use Rattle.wh_scalar.specs.Condition.{compared_by};

    // None where the row has no number there.
    #[tactic(auto, unfolding(wh_meaning::specs::Scalar::val))]
    fn truth_on(self, row: &Row) -> Option<bool>
        ensures { IfSome result (λ truth.
            option_map is_true (val (compared_by self) row.now) ≡ Some truth) }
    {
        match column_at_hand(row, self.place)? {
            Value::Number(number) => Some(meets(self.comparison, number.cmp(&self.number))),
            _ => None,
        }
    }
}

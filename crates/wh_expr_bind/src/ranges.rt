//! IN and BETWEEN: tests of a part against others.
ghost use Rattle.std.specs.Prelude.{◌≡◌, ℕ, [], IfOk};
ghost use Rattle.wh_naming.specs.Typing as naming;
ghost use Rattle.wh_expr_bind.specs.Forms.{equal_to};
ghost use Rattle.wh_expr_bind.specs.View.{part_in};

use crate::forms::{alone, are_alike, compared, part, under};
use crate::{Typed, scalars};
use sqlite_items::Boxed;
use std::alloc::{AllocError, Global};
use wh_ast::Operator;
use wh_scalar::Scalar;
use wh_value::{ColumnType, Comparison, Value};

/// IN of no items.
#[tactic(auto, unfolding(crate::specs::View::part_in))]
pub(crate) fn among_none(alloc: Global, x: Boxed<Typed>) -> Result<Boxed<Typed>, AllocError>
    ensures { (context : naming.Context) (number : ℕ) → IfOk result (λ t. part_in t
        ≡ naming.among (part_in x) [] context number) }
{
    let x = x.into_inner();
    let scalar = Scalar::Const(Value::Bool(false));
    part(
        alloc,
        scalar,
        Some(ColumnType::Boolean),
        x.calls,
        x.findings,
    )
}

/// The tests so far, or the left side's equality with one more item.
#[tactic(auto, unfolding(crate::specs::Forms::under))]
pub(crate) fn or_equal(
    alloc: Global,
    left: &Typed,
    tests: Boxed<Typed>,
    item: Boxed<Typed>,
) -> Result<Boxed<Typed>, AllocError>
    ensures { IfOk result (λ t. part_in t
        ≡ naming.or_equal (part_in left.now) (part_in tests) (part_in item)) }
{
    let is_mistyped = !are_alike(left, item.get());
    let equal = equal_to(alloc, left, item)?;
    under(
        alloc,
        Operator::Or,
        ColumnType::Boolean,
        tests,
        equal,
        is_mistyped,
    )
}

#[tactic(auto, unfolding(crate::specs::View::part_in))]
fn equal_to(alloc: Global, left: &Typed, item: Boxed<Typed>) -> Result<Boxed<Typed>, AllocError>
    ensures { IfOk result (λ t. part_in t ≡ equal_to (part_in left.now) (part_in item)) }
{
    let copy = left.scalar.copy(alloc)?;
    let item = item.into_inner();
    let scalar = scalars::compared(alloc, Comparison::Equal, copy, item.scalar)?;
    part(alloc, scalar, item.type_of, item.calls, item.findings)
}

/// BETWEEN a least and a greatest.
#[tactic(auto, using(crate::proofs::RangeLemmas::both_bounds))]
pub(crate) fn ranged_between(
    alloc: Global,
    x: Boxed<Typed>,
    low: Boxed<Typed>,
    high: Boxed<Typed>,
) -> Result<Boxed<Typed>, AllocError>
    ensures { IfOk result (λ t. part_in t
        ≡ naming.ranged_between (part_in x) (part_in low) (part_in high)) }
{
    let copy = alone(alloc, x.get())?;
    let above = compared(alloc, Comparison::GreaterOrEqual, x, low)?;
    let below = compared(alloc, Comparison::LessOrEqual, copy, high)?;
    under(
        alloc,
        Operator::And,
        ColumnType::Boolean,
        above,
        below,
        false,
    )
}

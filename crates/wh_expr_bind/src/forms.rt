//! Expressions of typed parts.
ghost use Rattle.std.specs.Prelude.{◌≡◌, ◌++◌, not, IfOk, option_map};
ghost use Rattle.wh_value.specs.View.{value_of, type_of};
ghost use Rattle.wh_meaning.specs.Scalar as meaning;
ghost use Rattle.wh_scalar.specs.View.{scalar_of};
ghost use Rattle.wh_algebra.specs.View.{calls_of};
ghost use Rattle.wh_naming.specs.Findings as wrong;
ghost use Rattle.wh_naming.specs.Typing as naming;
ghost use Rattle.wh_expr_bind.specs.View.{findings_of, part_in, place_of, type_of_option};
ghost use Rattle.wh_expr_bind.specs.Forms.{alone, part_of, scalar_by};
ghost use Rattle.wh_expr_bind.specs.Forms.{scalar_under, taken_by, under};

use crate::scalars::Prefix;
use crate::types::value_type;
use crate::{Findings, Place, Typed, alike, scalars};
use sqlite_items::Boxed;
use std::alloc::{AllocError, Global};
use wh_algebra::Call;
use wh_ast::Operator;
use wh_scalar::Scalar;
use wh_value::{ColumnType, Comparison, Text, Value};

/// A part of a scalar and its type, with the calls in it and what is found wrong.
#[tactic(auto, unfolding(crate::specs::View::part_in))]
pub(crate) fn part(
    alloc: Global,
    scalar: Scalar,
    type_of: Option<ColumnType>,
    calls: Vec<Call>,
    findings: Findings,
) -> Result<Boxed<Typed>, AllocError>
    ensures { IfOk result (λ t. part_in t ≡ part_of (scalar_of scalar) (type_of_option type_of)
        (calls_of calls.items) (findings_of findings)) }
{
    Boxed::new(
        alloc,
        Typed {
            scalar,
            type_of,
            calls,
            findings,
        },
    )
}

/// A scalar of a type without calls.
pub(crate) fn leaf(
    alloc: Global,
    scalar: Scalar,
    type_of: Option<ColumnType>,
    findings: Findings,
) -> Result<Boxed<Typed>, AllocError>
    ensures { IfOk result (λ t. part_in t
        ≡ naming.leaf (scalar_of scalar) (type_of_option type_of) (findings_of findings)) }
{
    part(alloc, scalar, type_of, Vec::new(alloc), findings)
}

pub(crate) fn constant(alloc: Global, value: &Value) -> Result<Boxed<Typed>, AllocError>
    ensures { IfOk result (λ t. part_in t ≡ naming.leaf (meaning.Const (value_of value.now))
        (naming.value_type (value_of value.now)) wrong.nothing_found) }
{
    let scalar = Scalar::Const(value.copy(alloc)?);
    leaf(alloc, scalar, value_type(value), Findings::nothing())
}

/// The column of a name at a place, or the finding that no one column has it.
pub(crate) fn column(
    alloc: Global,
    name: &Text,
    place: Option<Place>,
) -> Result<Boxed<Typed>, AllocError>
    ensures { IfOk result (λ t. part_in t
        ≡ naming.column_typed name.now (option_map place_of place)) }
{
    let Some(place) = place else {
        let findings = Findings::unknown_column(name.copy(alloc)?);
        return leaf(alloc, Scalar::Const(Value::Null), None, findings);
    };
    let scalar = scalars::column(place.place)?;
    leaf(alloc, scalar, Some(place.column_type), Findings::nothing())
}

/// A copy of a part's scalar with its type.
#[tactic(auto, unfolding(crate::specs::View::part_in))]
pub(crate) fn alone(alloc: Global, x: &Typed) -> Result<Boxed<Typed>, AllocError>
    ensures { IfOk result (λ t. part_in t ≡ alone (part_in x.now)) }
{
    let scalar = x.scalar.copy(alloc)?;
    leaf(alloc, scalar, x.type_of, Findings::nothing())
}

/// Whether a part fits where a type is taken.
#[tactic(auto, unfolding(crate::specs::View::part_in))]
pub(crate) fn fits(taken: ColumnType, x: &Typed) -> bool
    ensures { result ≡ naming.alike (Some (type_of taken)) (part_in x.now).type_of }
{
    alike(Some(taken), x.type_of)
}

/// Whether two parts that are compared have one type.
#[tactic(auto, unfolding(crate::specs::View::part_in))]
pub(crate) fn are_alike(x: &Typed, y: &Typed) -> bool
    ensures { result ≡ naming.alike (part_in x.now).type_of (part_in y.now).type_of }
{
    alike(x.type_of, y.type_of)
}

/// A part under a minus sign, which takes a number, or under NOT, which takes a truth value.
#[tactic(auto, unfolding(crate::specs::View::part_in))]
pub(crate) fn prefixed(
    alloc: Global,
    prefix: Prefix,
    x: Boxed<Typed>,
) -> Result<Boxed<Typed>, AllocError>
    ensures { IfOk result (λ t. part_in t
        ≡ naming.over (scalar_under prefix) (taken_by prefix) (taken_by prefix) (part_in x)) }
{
    let taken = taken_by(prefix);
    let is_mistyped = !fits(taken, x.get());
    let x = x.into_inner();
    let scalar = scalars::prefixed(alloc, prefix, x.scalar)?;
    let findings = x.findings.followed(Findings::mistyped_if(is_mistyped));
    part(alloc, scalar, Some(taken), x.calls, findings)
}

fn taken_by(prefix: Prefix) -> ColumnType
    ensures { type_of result ≡ taken_by prefix }
{
    match prefix {
        Prefix::Minus => ColumnType::Number,
        Prefix::Not => ColumnType::Boolean,
    }
}

/// With NOT, where it is written.
#[tactic(auto, unfolding(crate::specs::View::part_in))]
pub(crate) fn inverted_if(
    alloc: Global,
    negated: bool,
    x: Boxed<Typed>,
) -> Result<Boxed<Typed>, AllocError>
    ensures { IfOk result (λ t. part_in t ≡ naming.inverted_if negated (part_in x)) }
{
    if !negated {
        return Ok(x);
    }
    let x = x.into_inner();
    let scalar = scalars::prefixed(alloc, Prefix::Not, x.scalar)?;
    part(alloc, scalar, x.type_of, x.calls, x.findings)
}

/// IS NULL, or IS NOT NULL.
pub(crate) fn null_test(
    alloc: Global,
    negated: bool,
    x: Boxed<Typed>,
) -> Result<Boxed<Typed>, AllocError>
    ensures { IfOk result (λ t. part_in t
        ≡ naming.inverted_if negated (naming.null_test (part_in x))) }
{
    let test = is_null(alloc, x)?;
    inverted_if(alloc, negated, test)
}

#[tactic(auto, unfolding(crate::specs::View::part_in))]
fn is_null(alloc: Global, x: Boxed<Typed>) -> Result<Boxed<Typed>, AllocError>
    ensures { IfOk result (λ t. part_in t ≡ naming.null_test (part_in x)) }
{
    let x = x.into_inner();
    let scalar = scalars::is_null(alloc, x.scalar)?;
    part(
        alloc,
        scalar,
        Some(ColumnType::Boolean),
        x.calls,
        x.findings,
    )
}

/// Two parts, with an operator between them.
pub(crate) fn combined(
    alloc: Global,
    operator: Operator,
    x: Boxed<Typed>,
    y: Boxed<Typed>,
) -> Result<Boxed<Typed>, AllocError>
    ensures { IfOk result (λ t. part_in t
        ≡ naming.combined operator (part_in x) (part_in y)) }
{
    match operator {
        Operator::Or | Operator::And => over_both(alloc, operator, ColumnType::Boolean, x, y),
        Operator::Compare(comparison) => compared(alloc, comparison, x, y),
        Operator::Add | Operator::Sub | Operator::Mul => {
            over_both(alloc, operator, ColumnType::Number, x, y)
        }
    }
}

// Two parts that both take a type, and give it.
#[tactic(auto, unfolding(crate::specs::Forms::under))]
fn over_both(
    alloc: Global,
    operator: Operator,
    taken: ColumnType,
    x: Boxed<Typed>,
    y: Boxed<Typed>,
) -> Result<Boxed<Typed>, AllocError>
    ensures { IfOk result (λ t. part_in t ≡ naming.over_both (scalar_by operator)
        (type_of taken) (type_of taken) (part_in x) (part_in y)) }
{
    let is_mistyped = !fits(taken, x.get()) || !fits(taken, y.get());
    under(alloc, operator, taken, x, y, is_mistyped)
}

/// Two parts of one type.
#[tactic(auto, unfolding(crate::specs::Forms::under))]
pub(crate) fn compared(
    alloc: Global,
    comparison: Comparison,
    x: Boxed<Typed>,
    y: Boxed<Typed>,
) -> Result<Boxed<Typed>, AllocError>
    ensures { IfOk result (λ t. part_in t
        ≡ naming.compared_with comparison (part_in x) (part_in y)) }
{
    let is_mistyped = !are_alike(x.get(), y.get());
    let operator = Operator::Compare(comparison);
    under(alloc, operator, ColumnType::Boolean, x, y, is_mistyped)
}

/// Two parts with an operator between them that gives a type, and whether it is mistyped.
#[tactic(auto, unfolding(crate::specs::View::part_in, crate::specs::Forms::under))]
pub(crate) fn under(
    alloc: Global,
    operator: Operator,
    given: ColumnType,
    x: Boxed<Typed>,
    y: Boxed<Typed>,
    is_mistyped: bool,
) -> Result<Boxed<Typed>, AllocError>
    ensures { IfOk result (λ t. part_in t
        ≡ under operator (type_of given) (part_in x) (part_in y) is_mistyped) }
{
    let x = x.into_inner();
    let y = y.into_inner();
    let found = x.findings.followed(y.findings);
    let findings = found.followed(Findings::mistyped_if(is_mistyped));
    let scalar = scalars::by(alloc, operator, x.scalar, y.scalar)?;
    let calls = joined(x.calls, y.calls)?;
    part(alloc, scalar, Some(given), calls, findings)
}

fn joined(mut first: Vec<Call>, mut next: Vec<Call>) -> Result<Vec<Call>, AllocError>
    ensures { IfOk result (λ both. calls_of both.items ≡ calls_of first.items
        ++ calls_of next.items) }
{
    first.append(&mut next)?;
    Ok(first)
}

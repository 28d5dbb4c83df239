//! Scalars of parts.
ghost use Rattle.std.specs.Prelude.{◌≡◌, IfOk};
ghost use Rattle.wh_scalar.specs.View.{scalar_of};
ghost use Rattle.wh_meaning.specs.Scalar as meaning;
ghost use Rattle.wh_expr_bind.specs.Forms.{scalar_by, scalar_under};

use sqlite_items::Boxed;
use std::alloc::{AllocError, Global};
use wh_ast::Operator;
use wh_scalar::Scalar;
use wh_value::Comparison;

pub(crate) fn by(
    alloc: Global,
    operator: Operator,
    x: Scalar,
    y: Scalar,
) -> Result<Scalar, AllocError>
    ensures { IfOk result (λ both. scalar_of both
        ≡ scalar_by operator (scalar_of x) (scalar_of y)) }
{
    match Boxed::new(alloc, x) {
        Ok(x) => Ok(between(operator, x, Boxed::new(alloc, y)?)),
        Err(fault) => {
            drop(y);
            Err(fault)
        }
    }
}

fn between(operator: Operator, x: Boxed<Scalar>, y: Boxed<Scalar>) -> Scalar
    ensures { scalar_of result ≡ scalar_by operator (scalar_of x) (scalar_of y) }
{
    match operator {
        Operator::Or => Scalar::Or(x, y),
        Operator::And => Scalar::And(x, y),
        Operator::Compare(comparison) => Scalar::Compare(comparison, x, y),
        Operator::Add => Scalar::Add(x, y),
        Operator::Sub => Scalar::Sub(x, y),
        Operator::Mul => Scalar::Mul(x, y),
    }
}

pub(crate) fn compared(
    alloc: Global,
    comparison: Comparison,
    x: Scalar,
    y: Scalar,
) -> Result<Scalar, AllocError>
    ensures { IfOk result (λ test. scalar_of test
        ≡ meaning.Compare comparison (scalar_of x) (scalar_of y)) }
{
    by(alloc, Operator::Compare(comparison), x, y)
}

/// What stands before a part: a minus sign, or NOT.
#[derive(Clone, Copy, Debug)]
pub(crate) enum Prefix {
    Minus,
    Not,
}

pub(crate) fn prefixed(alloc: Global, prefix: Prefix, x: Scalar) -> Result<Scalar, AllocError>
    ensures { IfOk result (λ under. scalar_of under ≡ scalar_under prefix (scalar_of x)) }
{
    let x = Boxed::new(alloc, x)?;
    match prefix {
        Prefix::Minus => Ok(Scalar::Neg(x)),
        Prefix::Not => Ok(Scalar::Not(x)),
    }
}

pub(crate) fn is_null(alloc: Global, x: Scalar) -> Result<Scalar, AllocError>
    ensures { IfOk result (λ test. scalar_of test ≡ meaning.IsNull (scalar_of x)) }
{
    Ok(Scalar::IsNull(Boxed::new(alloc, x)?))
}

/// A column by its place. A list that has more than a `u32` counts holds more than memory does.
pub(crate) fn column(place: usize) -> Result<Scalar, AllocError>
    ensures { IfOk result (λ column. scalar_of column ≡ meaning.Column place) }
{
    let Ok(place) = u32::try_from(place) else {
        return Err(AllocError);
    };
    Ok(Scalar::Column(place))
}

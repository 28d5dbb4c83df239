//! Copies of expressions.
ghost use Rattle.std.specs.Prelude.{◌≡◌, IfOk};

use crate::parts::{Part, beside, copy_two, copy_value};
use sqlite_items::{Boxed, Items};
use std::alloc::{AllocError, Global};
use wh_ast::Expr;

/// An equal expression, with memory of its own.
#[cycle(copy)]
pub fn copy_expr(alloc: Global, expr: &Expr) -> Result<Expr, AllocError>
    ensures { IfOk result (λ copy. copy ≡ expr.now) }
{
    match expr {
        Expr::Const(value) => Ok(Expr::Const(copy_value(alloc, value)?)),
        Expr::Column(entry, name) => {
            let (entry, name) = copy_two(alloc, entry, name)?;
            Ok(Expr::Column(entry, name))
        }
        Expr::Neg(x) => Ok(Expr::Neg(copy_boxed(alloc, x)?)),
        Expr::Not(x) => Ok(Expr::Not(copy_boxed(alloc, x)?)),
        Expr::Binary(operator, x, y) => {
            let (x, y) = beside(copy_boxed(alloc, x)?, copy_boxed(alloc, y))?;
            Ok(Expr::Binary(*operator, x, y))
        }
        Expr::IsNull(negated, x) => Ok(Expr::IsNull(*negated, copy_boxed(alloc, x)?)),
        Expr::In(negated, x, items) => {
            let (x, items) = beside(copy_boxed(alloc, x)?, copy_exprs(alloc, items.as_slice()))?;
            Ok(Expr::In(*negated, x, items))
        }
        Expr::Between(negated, x, least, greatest) => {
            let (least, greatest) = beside(copy_boxed(alloc, least)?, copy_boxed(alloc, greatest))?;
            let ((least, greatest), x) = beside((least, greatest), copy_boxed(alloc, x))?;
            Ok(Expr::Between(*negated, x, least, greatest))
        }
        Expr::Sum(x) => Ok(Expr::Sum(copy_boxed(alloc, x)?)),
        Expr::CountRows => Ok(Expr::CountRows),
        Expr::Count(x) => Ok(Expr::Count(copy_boxed(alloc, x)?)),
    }
}

#[cycle(copy)]
fn copy_boxed(alloc: Global, expr: &Boxed<Expr>) -> Result<Boxed<Expr>, AllocError>
    ensures { IfOk result (λ copy. copy ≡ expr.now) }
{
    Boxed::new(alloc, copy_expr(alloc, expr.get())?)
}

/// Equal expressions, in their order.
#[cycle(copy)]
pub(crate) fn copy_exprs(alloc: Global, items: &[Expr]) -> Result<Items<Expr>, AllocError>
    ensures { IfOk result (λ copies. copies ≡ items.now) }
{
    let mut copies = Items::new(alloc);
    for item in items {
        copies.push(copy_expr(alloc, item)?)?;
    }
    Ok(copies)
}

impl Part for Expr {
    fn copied(&self, alloc: Global) -> Result<Expr, AllocError> {
        copy_expr(alloc, self)
    }
}

//! Calls: places behind the columns of all entries.
ghost use Rattle.std.specs.Prelude.{◌≡◌, ◌+◌, ◌∷◌, [], true, Some, IfOk};
ghost use Rattle.wh_value.specs.Value.{Null};
ghost use Rattle.wh_value.specs.Column.{NumberType};
ghost use Rattle.wh_meaning.specs.Query as meaning;
ghost use Rattle.wh_meaning.specs.Scalar as scalars;
ghost use Rattle.wh_scalar.specs.View.{scalar_of};
ghost use Rattle.wh_algebra.specs.View.{call_of, calls_of};
ghost use Rattle.wh_naming.specs.Findings as wrong;
ghost use Rattle.wh_naming.specs.Scope as scope;
ghost use Rattle.wh_naming.specs.Typing as naming;
ghost use Rattle.wh_expr_bind.specs.View.{findings_of, part_in};
ghost use Rattle.wh_expr_bind.specs.Forms.{sees};

use crate::context::Context;
use crate::count::counted;
use crate::forms::{fits, leaf, part};
use crate::{Findings, Typed, scalars, width};
use sqlite_items::Boxed;
use std::alloc::{AllocError, Global};
use wh_algebra::Call;
use wh_scalar::Scalar;
use wh_value::{ColumnType, Value};

/// SUM of a part.
#[tactic(auto, unfolding(crate::specs::View::part_in))]
pub(crate) fn sum(
    alloc: Global,
    x: Boxed<Typed>,
    context: Context,
    number: usize,
) -> Result<Boxed<Typed>, AllocError>
    ensures { IfOk result (λ t. part_in t ≡ naming.called (sees context.entry) number
        (meaning.Sum (part_in x).scalar)
        (wrong.followed (part_in x).findings (naming.takes NumberType (part_in x)))) }
{
    let is_mistyped = !fits(ColumnType::Number, x.get());
    let x = x.into_inner();
    let findings = x.findings.followed(Findings::mistyped_if(is_mistyped));
    called(alloc, Call::Sum(x.scalar), findings, context, number)
}

/// COUNT of a part.
#[tactic(auto, unfolding(crate::specs::View::part_in))]
pub(crate) fn count(
    alloc: Global,
    x: Boxed<Typed>,
    context: Context,
    number: usize,
) -> Result<Boxed<Typed>, AllocError>
    ensures { IfOk result (λ t. part_in t ≡ naming.called (sees context.entry) number
        (meaning.Count (part_in x).scalar) (part_in x).findings) }
{
    let x = x.into_inner();
    called(alloc, Call::Count(x.scalar), x.findings, context, number)
}

/// COUNT of all rows.
pub(crate) fn count_rows(
    alloc: Global,
    context: Context,
    number: usize,
) -> Result<Boxed<Typed>, AllocError>
    ensures { IfOk result (λ t. part_in t
        ≡ naming.called (sees context.entry) number meaning.CountRows wrong.nothing_found) }
{
    called(alloc, Call::CountRows, Findings::nothing(), context, number)
}

// A call by its number. Where calls may not stand it is mistyped.
fn called(
    alloc: Global,
    call: Call,
    findings: Findings,
    context: Context,
    number: usize,
) -> Result<Boxed<Typed>, AllocError>
    ensures { IfOk result (λ t. part_in t
        ≡ naming.called (sees context.entry) number (call_of call) (findings_of findings)) }
{
    if context.takes_calls {
        placed(alloc, call, findings, context, number)
    } else {
        drop(call);
        mistyped(alloc, findings)
    }
}

// A call where calls may stand.
#[tactic(auto, unfolding(crate::specs::View::part_in))]
fn placed(
    alloc: Global,
    call: Call,
    findings: Findings,
    context: Context,
    number: usize,
) -> Result<Boxed<Typed>, AllocError>
    requires { context.takes_calls ≡ true }
    ensures { IfOk result (λ t. part_in t
        ≡ naming.called (sees context.entry) number (call_of call) (findings_of findings)) }
{
    let calls = only(alloc, call)?;
    let scalar = place_of(context, number)?;
    part(alloc, scalar, Some(ColumnType::Number), calls, findings)
}

// What stands where no call may stand.
fn mistyped(alloc: Global, findings: Findings) -> Result<Boxed<Typed>, AllocError>
    ensures { IfOk result (λ t. part_in t ≡ naming.leaf (scalars.Const Null) (Some NumberType)
        (wrong.followed (findings_of findings) (wrong.mistyped_if true))) }
{
    let findings = findings.followed(Findings::mistyped_if(true));
    let scalar = Scalar::Const(Value::Null);
    leaf(alloc, scalar, Some(ColumnType::Number), findings)
}
// The place of a call by its number, behind the columns of all entries.
fn place_of(context: Context, number: usize) -> Result<Scalar, AllocError>
    ensures { IfOk result (λ place. scalar_of place
        ≡ scalars.Column (scope.width (sees context.entry).entries + number)) }
{
    let place = counted(width(context.entries)?, number)?;
    scalars::column(place)
}

fn only(alloc: Global, call: Call) -> Result<Vec<Call>, AllocError>
    ensures { IfOk result (λ calls. calls_of calls.items ≡ call_of call ∷ []) }
{
    let mut calls = Vec::new(alloc);
    calls.push(call)?;
    Ok(calls)
}

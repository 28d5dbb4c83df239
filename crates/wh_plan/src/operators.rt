//! One operator over plans, from copies of a query's parts.
ghost use Rattle.std.specs.Prelude.{◌≡◌, IfOk};
ghost use Rattle.wh_meaning.specs.Query as meaning;
ghost use Rattle.wh_scalar.specs.View.{scalar_of};
ghost use Rattle.wh_algebra.specs.View.{scalars_of, calls_of};
ghost use Rattle.wh_algebra.specs.Plan.{plan_of};

use sqlite_items::Boxed;
use std::alloc::{AllocError, Global};
use wh_algebra::{Call, Physical, copy_calls, copy_scalars};
use wh_scalar::Scalar;

pub(crate) fn filter_of(
    alloc: Global,
    input: Boxed<Physical>,
    condition: &Scalar,
) -> Result<Boxed<Physical>, AllocError>
    ensures { IfOk result (λ plan. plan_of plan
        ≡ meaning.Filter (plan_of input) (scalar_of condition.now)) }
{
    let condition = condition.copy(alloc)?;
    Boxed::new(alloc, Physical::filter(input, condition))
}

pub(crate) fn project_of(
    alloc: Global,
    input: Boxed<Physical>,
    items: &[Scalar],
) -> Result<Boxed<Physical>, AllocError>
    ensures { IfOk result (λ plan. plan_of plan
        ≡ meaning.Project (plan_of input) (scalars_of items.now)) }
{
    let items = copy_scalars(alloc, items)?;
    Boxed::new(alloc, Physical::project(input, items))
}

pub(crate) fn join_of(
    alloc: Global,
    left: Boxed<Physical>,
    right: Boxed<Physical>,
    on: &Scalar,
) -> Result<Boxed<Physical>, AllocError>
    ensures { IfOk result (λ plan. plan_of plan
        ≡ meaning.Join (plan_of left) (plan_of right) (scalar_of on.now)) }
{
    let on = on.copy(alloc)?;
    Boxed::new(alloc, Physical::join(left, right, on))
}

pub(crate) fn union_of(
    alloc: Global,
    left: Boxed<Physical>,
    right: Boxed<Physical>,
) -> Result<Boxed<Physical>, AllocError>
    ensures { IfOk result (λ plan. plan_of plan ≡ meaning.UnionAll (plan_of left) (plan_of right)) }
{
    Boxed::new(alloc, Physical::union_all(left, right))
}

pub(crate) fn group_of(
    alloc: Global,
    input: Boxed<Physical>,
    by: &[Scalar],
    calls: &[Call],
) -> Result<Boxed<Physical>, AllocError>
    ensures { IfOk result (λ plan. plan_of plan
        ≡ meaning.Group (plan_of input) (scalars_of by.now) (calls_of calls.now)) }
{
    let by = copy_scalars(alloc, by)?;
    let calls = copy_calls(alloc, calls)?;
    Boxed::new(alloc, Physical::group(input, by, calls))
}

//! Copies of scalars and calls, with memory of their own.
ghost use Rattle.std.specs.Prelude.{◌≡◌, IfOk};
ghost use Rattle.wh_algebra.specs.View.{scalars_of, call_of, calls_of};

use crate::Call;
use sqlite_items::Items;
use std::alloc::{AllocError, Global};
use wh_scalar::Scalar;

/// The scalars again, in order.
pub fn copy_scalars(alloc: Global, scalars: &[Scalar]) -> Result<Items<Scalar>, AllocError>
    ensures { IfOk result (λ copies. scalars_of copies ≡ scalars_of scalars.now) }
{
    let mut copies = Items::new(alloc);
    for scalar in scalars {
        copies.push(scalar.copy(alloc)?)?;
    }
    Ok(copies)
}

/// The calls again, in order.
pub fn copy_calls(alloc: Global, calls: &[Call]) -> Result<Items<Call>, AllocError>
    ensures { IfOk result (λ copies. calls_of copies ≡ calls_of calls.now) }
{
    let mut copies = Items::new(alloc);
    for call in calls {
        copies.push(copy_call(alloc, call)?)?;
    }
    Ok(copies)
}

fn copy_call(alloc: Global, call: &Call) -> Result<Call, AllocError>
    ensures { IfOk result (λ copy. call_of copy ≡ call_of call.now) }
{
    match call {
        Call::Sum(scalar) => Ok(Call::Sum(scalar.copy(alloc)?)),
        Call::CountRows => Ok(Call::CountRows),
        Call::Count(scalar) => Ok(Call::Count(scalar.copy(alloc)?)),
    }
}

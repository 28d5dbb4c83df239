ghost use Rattle.std.specs.Prelude.{IfOk};
ghost use Rattle.wh_exec.specs.Defined.{IsDefinedAs};

use std::alloc::AllocError;
use wh_scalar::EvalFault;

/// None where a number is out of range.
pub(crate) fn defined<T: Drop>(evaluated: Result<T, EvalFault>) -> Result<Option<T>, AllocError>
    ensures { IfOk result (λ found. IsDefinedAs evaluated found) }
{
    match evaluated {
        Ok(value) => Ok(Some(value)),
        Err(EvalFault::NumberOutOfRange) => Ok(None),
        Err(EvalFault::OutOfMemory) => Err(AllocError),
    }
}

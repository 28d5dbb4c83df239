ghost use Rattle.std.specs.Prelude.{◌≡◌, ◌+◌, IfOk};

use std::alloc::AllocError;

// Two counts together. More than a `usize` counts is an AllocError, since no memory holds as much.
pub(crate) fn counted(first: usize, next: usize) -> Result<usize, AllocError>
    ensures { IfOk result (λ sum. sum ≡ first + next) }
{
    first.checked_add(next).ok_or(AllocError)
}

ghost use Rattle.std.specs.Prelude.{◌≡◌};
ghost use Rattle.wh_cursor.specs.declared.fault.ParseFault.TheVariants as faults;

use std::alloc::AllocError;

/// Why tokens were not read.
#[derive(Clone, Copy, Debug, PartialEq, Eq)]
pub enum ParseFault {
    /// The tokens don't begin with what was looked for.
    SyntaxError,
    /// Memory ran out.
    OutOfMemory,
}

impl From<AllocError> for ParseFault {
    ghost from_gives = { λ _ fault. fault ≡ faults.OutOfMemory };

    fn from(_error: AllocError) -> ParseFault {
        ParseFault::OutOfMemory
    }
}

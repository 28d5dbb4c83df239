use std::alloc::AllocError;
use wh_naming::Failing;

/// Why a statement isn't bound.
#[derive(Debug, Drop)]
pub enum BindFault {
    /// The first failing test, each over the whole statement before the next one.
    Failing(Failing),
    OutOfMemory,
}

impl From<AllocError> for BindFault {
    ghost use Rattle.std.specs.Prelude.{◌≡◌};
    ghost use Rattle.wh_bind.specs.declared.fault.BindFault.TheVariants.{OutOfMemory};

    ghost from_gives = { λ _ fault. fault ≡ OutOfMemory };

    fn from(_: AllocError) -> Self {
        BindFault::OutOfMemory
    }
}

use std::alloc::AllocError;
use wh_scalar::EvalFault;
use wh_value::Row;

/// Why there is no effect.
#[derive(Debug, Drop)]
pub enum EffectFault {
    OutOfMemory,
    /// A number has more than 18 digits.
    NumberOutOfRange,
    /// Several source rows select a change of this row of the target.
    AmbiguousMerge(Row),
}

impl From<AllocError> for EffectFault {
    ghost use Rattle.std.specs.Prelude.{◌≡◌};
    ghost use Rattle.wh_dml.specs.declared.fault.EffectFault.TheVariants.{OutOfMemory};

    ghost from_gives = { λ _ fault. fault ≡ OutOfMemory };

    fn from(_: AllocError) -> Self {
        EffectFault::OutOfMemory
    }
}

impl From<EvalFault> for EffectFault {
    ghost use Rattle.std.specs.Prelude.{◌≡◌};
    ghost use Rattle.wh_dml.specs.View.{fault_of};

    ghost from_gives = { λ fault found. found ≡ fault_of fault };

    fn from(fault: EvalFault) -> Self {
        match fault {
            EvalFault::NumberOutOfRange => EffectFault::NumberOutOfRange,
            EvalFault::OutOfMemory => EffectFault::OutOfMemory,
        }
    }
}

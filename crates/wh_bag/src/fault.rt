use std::alloc::AllocError;

/// Why a row isn't added.
#[derive(Clone, Copy, Debug, PartialEq, Eq)]
pub enum AddFault {
    /// The row would be there 2^64 times or more.
    TooMany,
    OutOfMemory,
}

/// Why a change isn't applied.
#[derive(Clone, Copy, Debug, PartialEq, Eq)]
pub enum ApplyFault {
    /// A row is taken away more often than it is there.
    Missing,
    /// A row would be there 2^64 times or more.
    TooMany,
    OutOfMemory,
}

impl From<AllocError> for AddFault {
    ghost use Rattle.std.specs.Prelude.{◌≡◌};
    ghost use Rattle.wh_bag.specs.declared.fault.AddFault.TheVariants.{OutOfMemory};

    ghost from_gives = { λ _ fault. fault ≡ OutOfMemory };

    fn from(_: AllocError) -> Self {
        AddFault::OutOfMemory
    }
}

impl From<AllocError> for ApplyFault {
    ghost use Rattle.std.specs.Prelude.{◌≡◌};
    ghost use Rattle.wh_bag.specs.declared.fault.ApplyFault.TheVariants.{OutOfMemory};

    ghost from_gives = { λ _ fault. fault ≡ OutOfMemory };

    fn from(_: AllocError) -> Self {
        ApplyFault::OutOfMemory
    }
}

impl From<AddFault> for ApplyFault {
    ghost use Rattle.std.specs.Prelude.{◌≡◌};
    ghost use Rattle.wh_bag.specs.Faults.{fault_of_add};

    ghost from_gives = { λ add fault. fault ≡ fault_of_add add };

    fn from(add: AddFault) -> Self {
        match add {
            AddFault::TooMany => ApplyFault::TooMany,
            AddFault::OutOfMemory => ApplyFault::OutOfMemory,
        }
    }
}

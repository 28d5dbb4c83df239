use std::alloc::AllocError;
use wh_catalog::StageFault;
use wh_journal::AppendFault;

/// Why a command was not carried out. The state is as it was.
#[derive(Clone, Copy, Debug, PartialEq, Eq)]
pub enum Halt {
    OutOfMemory,
    /// A write or a sync failed: the file has to be opened again.
    DiskFault,
    /// A read failed. The file and the journal are as they were.
    ReadFault,
    /// The partition whose bytes should stand at `at` isn't there.
    Damaged { at: u64 },
    /// The commit's record needs more bytes than the limit leaves: `len` is the position after the
    /// present gate.
    FileFull { len: u64, need: u64 },
    /// An earlier write or sync failed: open the file again.
    NeedsReopen { faults: u64 },
}

impl From<AllocError> for Halt {
    ghost use Rattle.std.specs.Prelude.{◌≡◌};
    ghost use Rattle.wh_engine.specs.declared.fault.Halt.TheVariants.{OutOfMemory};

    ghost from_gives = { λ _ halt. halt ≡ OutOfMemory };

    fn from(_: AllocError) -> Self {
        Halt::OutOfMemory
    }
}

// A commit that doesn't apply is made only over a state that no command leaves.
impl From<StageFault> for Halt {
    ghost use Rattle.std.specs.Prelude.{◌≡◌};
    ghost use Rattle.wh_engine.specs.declared.fault.Halt.TheVariants.{OutOfMemory};

    ghost from_gives = { λ _ halt. halt ≡ OutOfMemory };

    fn from(_: StageFault) -> Self {
        Halt::OutOfMemory
    }
}

impl From<AppendFault> for Halt {
    ghost use Rattle.std.specs.Prelude.{◌≡◌};
    ghost use Rattle.wh_engine.specs.Fault.{halt_of};

    ghost from_gives = { λ fault halt. halt ≡ halt_of fault };

    fn from(fault: AppendFault) -> Self {
        match fault {
            AppendFault::DiskFault => Halt::DiskFault,
            AppendFault::FileFull { len, need } => Halt::FileFull { len, need },
            AppendFault::NeedsReopen { faults } => Halt::NeedsReopen { faults },
        }
    }
}

use std::alloc::AllocError;
use wh_engine::{Halt, OpenFault};
use wh_text::ScriptFault;
use wh_world::Failed;

/// What ends a run before its script does.
#[derive(Clone, Copy, Debug, PartialEq, Eq)]
pub enum Fault {
    OutOfMemory,
    /// The disk failed.
    Disk,
    /// The script couldn't be read.
    Script,
    /// The replies couldn't be written.
    Output,
    /// The file is no warehouse: `at` is the position of its first fault.
    NotWarehouse { at: u64 },
    /// A partition is damaged: its bytes should stand at `at`.
    Damaged { at: u64 },
    /// A commit needs `need` bytes from `len` on, more than the file may have.
    FileFull { len: u64, need: u64 },
    /// More than 2^30 bytes were taken from the script: `taken` is their number.
    ScriptTooLong { taken: u64 },
}

impl From<AllocError> for Fault {
    ghost use Rattle.std.specs.Prelude.{◌≡◌};
    ghost use Rattle.wh_shell.specs.declared.fault.Fault.TheVariants.{OutOfMemory};

    ghost from_gives = { λ _ fault. fault ≡ OutOfMemory };

    fn from(_: AllocError) -> Self {
        Fault::OutOfMemory
    }
}

// A write of replies.
impl From<Failed> for Fault {
    ghost use Rattle.std.specs.Prelude.{◌≡◌};
    ghost use Rattle.wh_shell.specs.declared.fault.Fault.TheVariants.{Output};

    ghost from_gives = { λ _ fault. fault ≡ Output };

    fn from(_: Failed) -> Self {
        Fault::Output
    }
}

impl From<ScriptFault> for Fault {
    ghost use Rattle.std.specs.Prelude.{◌≡◌};
    ghost use Rattle.wh_shell.specs.Fault.{fault_of_script};

    ghost from_gives = { λ read fault. fault ≡ fault_of_script read };

    fn from(read: ScriptFault) -> Self {
        match read {
            ScriptFault::OutOfMemory => Fault::OutOfMemory,
            ScriptFault::Read => Fault::Script,
            ScriptFault::TooLong { taken } => Fault::ScriptTooLong { taken },
        }
    }
}

impl From<Halt> for Fault {
    ghost use Rattle.std.specs.Prelude.{◌≡◌};
    ghost use Rattle.wh_shell.specs.Fault.{fault_of_halt};

    ghost from_gives = { λ halt fault. fault ≡ fault_of_halt halt };

    fn from(halt: Halt) -> Self {
        match halt {
            Halt::OutOfMemory => Fault::OutOfMemory,
            // A journal needs to be opened again only after a fault of its disk.
            Halt::DiskFault | Halt::ReadFault | Halt::NeedsReopen { .. } => Fault::Disk,
            Halt::Damaged { at } => Fault::Damaged { at },
            Halt::FileFull { len, need } => Fault::FileFull { len, need },
        }
    }
}

impl From<OpenFault> for Fault {
    ghost use Rattle.std.specs.Prelude.{◌≡◌};
    ghost use Rattle.wh_shell.specs.Fault.{fault_of_open};

    ghost from_gives = { λ opening fault. fault ≡ fault_of_open opening };

    fn from(opening: OpenFault) -> Self {
        match opening {
            OpenFault::OutOfMemory => Fault::OutOfMemory,
            OpenFault::DiskFault => Fault::Disk,
            OpenFault::NotWarehouse { at } => Fault::NotWarehouse { at },
        }
    }
}

use crate::Fault;

/// How a run ended.
#[derive(Clone, Copy, Debug, PartialEq, Eq)]
pub enum Status {
    /// The words are none that the program takes; nothing was opened.
    Usage,
    /// The script was read to its end; so many replies were refusals.
    Read { refusals: u64 },
    /// It ended before, and what was written is a front of the whole text.
    Stopped(Fault),
}

impl Status {
    ghost use Rattle.std.specs.Prelude.{◌≡◌};
    ghost use Rattle.wh_shell.specs.Code.{code_of, status_of};

    /// What was served, or what ended it.
    pub(crate) fn of(served: Result<u64, Fault>) -> Status
        ensures { result ≡ status_of served }
    {
        match served {
            Ok(refusals) => Status::Read { refusals },
            Err(fault) => Status::Stopped(fault),
        }
    }

    /// The exit code.
    pub fn code(&self) -> u8
        ensures { result ≡ code_of self.now }
    {
        match self {
            Status::Read { refusals: 0 } => 0,
            Status::Read { .. } => 1,
            Status::Usage => 2,
            Status::Stopped(fault) => fault.code(),
        }
    }
}

impl Fault {
    ghost use Rattle.std.specs.Prelude.{◌≡◌};
    ghost use Rattle.wh_shell.specs.Code.{fault_code_of};

    fn code(&self) -> u8
        ensures { result ≡ fault_code_of self.now }
    {
        match self {
            Fault::OutOfMemory => 3,
            Fault::Disk => 4,
            Fault::Script => 5,
            Fault::Output => 6,
            Fault::NotWarehouse { .. } => 7,
            Fault::FileFull { .. } => 8,
            Fault::ScriptTooLong { .. } => 9,
            Fault::Damaged { .. } => 10,
        }
    }
}

ghost use Rattle.std.specs.Prelude.{◌≡◌};
ghost use Rattle.wh_txn.specs.declared.fault.RecordFault.TheVariants.{OutOfMemory};
ghost use Rattle.wh_txn.specs.Fault.{fault_of};

use std::alloc::AllocError;
use wh_fetch::FetchFault;
use wh_value::Limit;

/// Why a transaction has no commit.
#[derive(Clone, Copy, Debug, PartialEq, Eq)]
pub enum RecordFault {
    /// A device failed.
    Read,
    OutOfMemory,
    /// A next number of the table would pass its limit.
    Limit { id: u32, which: Limit },
}

impl From<AllocError> for RecordFault {
    ghost from_gives = { λ _ fault. fault ≡ OutOfMemory };

    fn from(_: AllocError) -> Self {
        RecordFault::OutOfMemory
    }
}

impl From<FetchFault> for RecordFault {
    ghost from_gives = { λ fault found. found ≡ fault_of fault };

    fn from(fault: FetchFault) -> Self {
        match fault {
            FetchFault::Read => RecordFault::Read,
            FetchFault::OutOfMemory => RecordFault::OutOfMemory,
        }
    }
}

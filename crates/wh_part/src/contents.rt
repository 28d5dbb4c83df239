//! What stood in a partition. It exists in proofs alone, and takes no memory.
ghost use Rattle.std.specs.Borrow.{ftrue};
ghost use Rattle.wh_frame.specs.Partition.{Partition as Rows, coded_partition};

use std::marker::Model;

#[derive(Debug, Drop)]
pub struct Contents {
    pub ghost partition: { Rows } by { coded_partition },
}

impl Model for Contents {
    ghost also_owns = { λ _. ftrue };
}

impl Contents {
    ghost use Rattle.std.specs.Prelude.{◌≡◌};
    ghost use Rattle.wh_frame.specs.Partition.{Partition as Rows};

    /// Of whichever partition the caller's proof names.
    pub(crate) fn of() -> Contents
        ghost partition: { Rows }
        ensures { result.partition ≡ partition }
    {
        Contents {}
    }
}

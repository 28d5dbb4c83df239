use std::alloc::{AllocError, Global};
use wh_change::{Appended, RowChange, TurnedOver, appends, net_changes};

/// The partitions that the changes behind a stream's offset are made of.
#[derive(Debug, Drop)]
pub(crate) enum Loaded {
    /// There are no changes.
    Nothing,
    Turned(TurnedOver),
    /// What was appended behind the one stamp, up to the other.
    Arrived(Appended, u64, u64),
}

impl Loaded {
    ghost use Rattle.std.specs.Prelude.{◌≡◌, List, IfOk};
    ghost use Rattle.wh_net.specs.Net as streams;
    ghost use Rattle.wh_change.specs.RowChange.{row_changes_of};
    ghost use Rattle.wh_stream.specs.Loaded.{Gives};

    /// These changes.
    pub(crate) fn changes(&self, alloc: Global) -> Result<Vec<RowChange<'_>>, AllocError>
        ensures { IfOk result (λ records. (shown : List streams.RowChange) → Gives self.now shown
            → row_changes_of records.items ≡ shown) }
    {
        match self {
            Loaded::Nothing => Ok(Vec::new(alloc)),
            Loaded::Turned(turned) => net_changes(alloc, turned),
            Loaded::Arrived(found, from, to) => appends(alloc, found, *from, *to),
        }
    }
}

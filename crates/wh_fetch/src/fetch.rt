ghost use Rattle.std.specs.Prelude.{◌≡◌, List, ℕ, Option, length, IfOk, IsSome};
ghost use Rattle.std.specs.Arc.{arc_value};
ghost use Rattle.wh_frame.specs.Partition.{Partition as Contents};
ghost use Rattle.wh_part.specs.declared.meta.PartId.{PartId};
ghost use Rattle.wh_part.specs.declared.meta.PartMeta.{PartMeta};
ghost use Rattle.wh_fetch.specs.Fetch.{IsTold, Asks, ReadsOnceEach};
ghost use Rattle.wh_fetch.specs.Device.{Counts};

use crate::FetchFault;
use std::sync::Arc;
use wh_part::{PartId, PartMeta, Partition};

/// Where the rows of partitions come from.
pub trait Fetch {
    /// The partitions that it covers.
    ghost covers: { Self → PartMeta → Type 0 };

    /// What stands in a partition, where that is told and it isn't damaged.
    ghost contents: { Self → PartMeta → Option Contents };

    /// How many partitions were found damaged, and the position of the last of them.
    ghost damage: { Self → ℕ × Option ℕ };

    /// The partitions that it was asked for, in order.
    ghost asked: { Self → List PartId };

    /// How often it has failed.
    ghost faults: { Self → ℕ };

    /// How often its device was read.
    ghost reads: { Self → ℕ };

    /// How a later state goes with an earlier one.
    ghost stays: { Self → Self → Type 0 };

    /// The partition, which is one of those that it covers.
    fn fetch(&mut self, part: &PartMeta) -> Result<Arc<Partition>, FetchFault>
        requires { covers self.old part.now }
        ensures contents { IfOk result
            (λ found. IsTold (contents self.old part.now) (arc_value found)) }
        ensures sound { IsSome (contents self.old part.now) → damage self.new ≡ damage self.old }
        ensures same { contents self.new ≡ contents self.old }
        ensures covered { (other : PartMeta) → covers self.old other → covers self.new other }
        ensures asked { Asks result part.now.id (asked self.old) (asked self.new) }
        ensures reads { ReadsOnceEach (reads self.old) (reads self.new)
            (asked self.old) (asked self.new) }
        ensures stays { stays self.old self.new }
        ensures counts { Counts (faults self.old) (faults self.new) result };

    /// How many partitions it was asked for.
    fn fetched(&self) -> u64
        ensures { result ≡ length (asked self.now) };

    /// A state goes with itself.
    ghost stays_so: { (fetch : Self) → stays fetch fetch };

    /// What goes with a later state goes with one that is later still.
    ghost stays_on: { (first then last : Self) → stays first then → stays then last →
        stays first last };

    /// What is covered stays covered.
    ghost covers_on: { (first last : Self) (part : PartMeta) → stays first last
        → covers first part → covers last part };

    /// What is covered keeps its contents.
    ghost contents_on: { (first last : Self) (part : PartMeta) → stays first last →
        covers first part
        → contents last part ≡ contents first part };
}

//! Partitions of a table, with their rows.

use crate::StoredTable;
use std::alloc::Global;
use std::sync::Arc;
use wh_fetch::{Fetch, FetchFault};
use wh_filed::{FiledPartition, fetch_all};
use wh_part::Partition;

impl StoredTable {
    ghost use Rattle.std.specs.Prelude.{◌≡◌, Contains, IfOk};
    ghost use Rattle.std.specs.List.{AllByRecursion};
    ghost use Rattle.wh_fetch.specs.Device.{Counts};
    ghost use Rattle.wh_filed.specs.Filed.{filed_at, partitions_at, loaded_of};
    ghost use Rattle.wh_filed.specs.Fetching.{AllShownBy, AllCovered};
    ghost use Rattle.wh_filed.specs.Asking.{AsksFor};
    ghost use Rattle.wh_table.specs.Table.{filed_of};

    /// Some of its partitions, in order.
    pub(crate) fn load_some<F: Fetch>(
        &self,
        alloc: Global,
        some: &[&FiledPartition],
        fetch: &mut F,
    ) -> Result<Vec<Arc<Partition>>, FetchFault>
        requires among { AllByRecursion (Contains (filed_of self.now)) (filed_at some.now) }
        requires covered { AllCovered (F.covers fetch.old) (filed_of self.now) }
        ensures loaded { AllShownBy (F.contents fetch.old) (filed_of self.now)
            → IfOk result (λ found. loaded_of found.items ≡ partitions_at some.now) }
        ensures sound { AllShownBy (F.contents fetch.old) (filed_of self.now)
            → F.damage fetch.new ≡ F.damage fetch.old }
        ensures asks { AsksFor (Contains (filed_of self.now))
            (F.asked fetch.old) (F.asked fetch.new) }
        ensures same { F.contents fetch.new ≡ F.contents fetch.old }
        ensures goes { F.stays fetch.old fetch.new }
        ensures counts { Counts (F.faults fetch.old) (F.faults fetch.new) result }
    {
        fetch_all(alloc, some, fetch)
    }
}

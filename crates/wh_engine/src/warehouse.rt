ghost use Rattle.std.specs.Prelude.{◌<◌, ◌≤◌};
ghost use Rattle.wh_fetch.specs.Cache.{Within};
ghost use Rattle.wh_fetch.specs.DiskFetch.{IsRight};
ghost use Rattle.wh_journal.specs.Journal.{end_of};

use std::alloc::Global;
use wh_catalog::Catalog;
use wh_fetch::DiskFetch;
use wh_journal::Journal;
use wh_part::PartId;
use wh_txn::Sessions;
use wh_world::Disk;

/// A file, the state that it stands for, and the open transactions. What the fetch keeps of the
/// file stands in front of the journal's present gate, where nothing is written any more.
#[derive(Drop)]
pub struct Warehouse<D: Disk> {
    pub(crate) alloc: Global,
    /// By how many workers the rows of queries are gone over.
    pub(crate) workers: u32,
    pub(crate) fetch: DiskFetch<D>,
    pub(crate) journal: Journal,
    pub(crate) catalog: Catalog,
    pub(crate) sessions: Sessions,
    ghost some_worker: { 1 ≤ workers },
    ghost reach: { end_of journal ≤ D.size fetch.disk },
    ghost front: { fetch.reach < end_of journal },
    ghost right: { IsRight D.Disk fetch },
    ghost within: { Within fetch.reach fetch.cache.entries },
}

impl<D: Disk> Warehouse<D> {
    ghost use Rattle.std.specs.Prelude.{◌≡◌, ℕ, List, Some};
    ghost use Rattle.wh_state.specs.State.{at_rest};
    ghost use Rattle.wh_state.specs.File.{Stands};
    ghost use Rattle.wh_catalog.specs.Catalog.{state_of};
    ghost use Rattle.wh_engine.specs.Warehouse.{Filed, fetched_of};

    /// The partitions that the last event asked for, in order.
    pub fn fetched(&self) -> &[PartId]
        ensures { result.now ≡ fetched_of self.now }
    {
        self.fetch.asked()
    }

    /// The disk as it stands.
    pub fn close(self) -> D
        ensures disk { result ≡ self.fetch.disk }
        ensures stands { Filed (D.bytes self.fetch.disk) self.journal self.catalog
            → (file : List ℕ) → D.bytes result ≡ Some file
            → Stands file (at_rest (state_of self.catalog)) }
    {
        let Warehouse { fetch, .. } = self;
        let DiskFetch { disk, .. } = fetch;
        disk
    }
}

use crate::replay::replay;
use crate::{OpenFault, Warehouse};
use std::alloc::Global;
use std::thread::Threads;
use wh_catalog::Catalog;
use wh_fetch::DiskFetch;
use wh_journal::Journal;
use wh_txn::Sessions;
use wh_world::Disk;

impl<D: Disk> Warehouse<D> {
    ghost use Rattle.std.specs.Prelude.{◌≡◌, ◌≤◌, ◌^◌, IfOk, IfErr};
    ghost use Rattle.wh_journal.specs.Journal.{end_of};
    ghost use Rattle.wh_engine.specs.Opening.{Opens, FailsToOpen};

    /// The warehouse of a file of at most `limit` bytes. A file of at most 8 bytes is written anew.
    /// A fault hands the disk back.
    ///
    /// `workers` is the number of threads that reads may use, from 1 to 64; no answer depends on
    /// it.
    pub fn open(
        _rt: &(impl Threads + Sync),
        alloc: Global,
        disk: D,
        workers: u32,
        limit: u64,
    ) -> Result<Warehouse<D>, (OpenFault, D)>
        requires some_worker { 1 ≤ workers }
        requires most_workers { workers ≤ 64 }
        requires some { 8 ≤ limit }
        requires most { limit ≤ 2 ^ 40 }
        ensures opened { IfOk result (λ w. Opens D.Disk disk limit w) }
        ensures refused { IfErr result (λ e. FailsToOpen D.Disk disk e.1 e.0) }
    {
        let mut disk = disk;
        match read(alloc, &mut disk, limit) {
            Ok((journal, catalog, sessions)) => {
                Warehouse::of(alloc, disk, workers, journal, catalog, sessions)
            }
            Err(fault) => Err((fault, disk)),
        }
    }

    // The warehouse of these parts.
    fn of(
        alloc: Global,
        disk: D,
        workers: u32,
        journal: Journal,
        catalog: Catalog,
        sessions: Sessions,
    ) -> Result<Warehouse<D>, (OpenFault, D)>
        requires some_worker { 1 ≤ workers }
        requires reach { end_of journal ≤ D.size disk }
        ensures made { IfOk result (λ w. (w.fetch.disk ≡ disk) × (w.journal ≡ journal)
            × (w.catalog ≡ catalog) × (w.sessions ≡ sessions)) }
        ensures back { IfErr result (λ e. (e.0 ≡ OpenFault.OutOfMemory) × (e.1 ≡ disk)) }
    {
        match DiskFetch::new(alloc, disk, records_end(&journal)) {
            Ok(fetch) => Ok(Warehouse {
                alloc,
                workers,
                fetch,
                journal,
                catalog,
                sessions,
            }),
            Err((_, disk)) => Err((OpenFault::OutOfMemory, disk)),
        }
    }
}

ghost use Rattle.std.specs.Prelude.{◌≡◌, ◌-◌, ◌<◌, ◌≤◌, ◌^◌, IfOk, IfErr};
ghost use Rattle.wh_journal.specs.Journal.{end_of};
ghost use Rattle.wh_engine.specs.Opening.{Finds, FailsToOpen};

// The journal of a file, the catalog to which it leads, and no open transaction.
fn read<D: Disk>(
    alloc: Global,
    disk: &mut D,
    limit: u64,
) -> Result<(Journal, Catalog, Sessions), OpenFault>
    requires some { 8 ≤ limit }
    requires most { limit ≤ 2 ^ 40 }
    ensures opened { IfOk result (λ r. Finds D.Disk disk.old disk.new limit r.0 r.1 r.2) }
    ensures refused { IfErr result (λ fault. FailsToOpen D.Disk disk.old disk.new fault) }
{
    let (journal, fault) = Journal::recover(alloc, disk, limit)?;
    // A commit that doesn't apply stands before the fault that its file breaks off at.
    let catalog = replay(alloc, disk, &journal)?;
    match fault {
        None => {
            let sessions = Sessions::new(alloc)?;
            Ok((journal, catalog, sessions))
        }
        Some(at) => Err(OpenFault::NotWarehouse { at }),
    }
}

/// Where the records end, in front of the present gate: what stands there stays.
pub(crate) fn records_end(journal: &Journal) -> u64
    ensures front { result < end_of journal.now }
    ensures last { end_of journal.now < 2 ^ 60 → result ≡ end_of journal.now - 1 }
{
    journal.next_place().saturating_sub(9)
}

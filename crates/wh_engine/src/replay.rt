ghost use Rattle.std.specs.Prelude.{◌≡◌, ◌+◌, ◌-◌, ◌<◌, ◌≤◌, ◌++◌, ℕ, List, Some, drop};
ghost use Rattle.std.specs.Prelude.{IfOk, OnOk, IsErrOf};
ghost use Rattle.wh_filed.specs.Filed.{AllShown};
ghost use Rattle.wh_state.specs.Stored.{Means};
ghost use Rattle.wh_journal.specs.Device.{Counts};
ghost use Rattle.wh_journal.specs.Journal.{end_of, count_of};
ghost use Rattle.wh_catalog.specs.Catalog.{stored_of, state_of, filed_of};
ghost use Rattle.wh_engine.specs.Replay.{LeadsTo, Strays, ShowsListed, OnlyReads, IsListed};
ghost use Rattle.wh_engine.specs.Replay.{Carries, CarriesNone, CarriesAt, CarriesNoneAt};

use crate::OpenFault;
use std::alloc::Global;
use wh_catalog::{Catalog, StageFault};
use wh_commit_parse::decode_commit;
use wh_journal::Journal;
use wh_world::Disk;

// The catalog to which the commits of a file lead, one after the other.
pub(crate) fn replay<D: Disk>(
    alloc: Global,
    disk: &mut D,
    journal: &Journal,
) -> Result<Catalog, OpenFault>
    requires { end_of journal.now ≤ D.size disk.old + 1 }
    ensures led { IfOk result (λ catalog.
        LeadsTo (D.bytes disk.old) journal.now (stored_of catalog)) }
    ensures shown { IfOk result (λ catalog.
        ShowsListed (D.bytes disk.old) journal.now (filed_of catalog)) }
    ensures strays { (at : ℕ) → IsErrOf result (OpenFault.NotWarehouse at) →
        Strays (D.bytes disk.old) journal.now at }
    // Over any disk.
    ensures means { IfOk result (λ catalog. Means (stored_of catalog) (state_of catalog)) }
    ensures some { (at : ℕ) → IsErrOf result (OpenFault.NotWarehouse at) →
        0 < count_of journal.now }
    ensures reads { OnlyReads D.Disk disk.old disk.new }
    ensures counts { Counts D.Disk disk.old disk.new result
        OpenFault.OutOfMemory OpenFault.DiskFault }
    ensures unfailed { (at : ℕ) → IsErrOf result (OpenFault.NotWarehouse at) →
        D.faults disk.new ≡ D.faults disk.old }
{
    let mut catalog = Catalog::new(alloc);
    for at in 0..journal.count() {
        replay_at(alloc, disk, journal, &mut catalog, at)?;
    }
    Ok(catalog)
}

// Carries out the commit of the payload at a place.
fn replay_at<D: Disk>(
    alloc: Global,
    disk: &mut D,
    journal: &Journal,
    catalog: &mut Catalog,
    at: u64,
) -> Result<(), OpenFault>
    requires listed { at < count_of journal.now }
    requires reach { end_of journal.now ≤ D.size disk.old + 1 }
    ensures carried { OnOk result ((payloads : List (List ℕ)) →
        IsListed (D.bytes disk.old) journal.now payloads →
        CarriesAt payloads at (stored_of catalog.old) (stored_of catalog.new)) }
    ensures shown { OnOk result (ShowsListed (D.bytes disk.old) journal.now (filed_of catalog.old) →
        ShowsListed (D.bytes disk.old) journal.now (filed_of catalog.new)) }
    ensures strays { (gate : ℕ) → IsErrOf result (OpenFault.NotWarehouse gate) →
        (payloads : List (List ℕ)) → IsListed (D.bytes disk.old) journal.now payloads →
        CarriesNoneAt payloads at (stored_of catalog.old) gate }
    // Over any disk.
    ensures means { OnOk result (Means (stored_of catalog.new) (state_of catalog.new)) }
    ensures reads { OnlyReads D.Disk disk.old disk.new }
    ensures counts { Counts D.Disk disk.old disk.new result
        OpenFault.OutOfMemory OpenFault.DiskFault }
    ensures unfailed { (place : ℕ) → IsErrOf result (OpenFault.NotWarehouse place) →
        D.faults disk.new ≡ D.faults disk.old }
{
    let payload = journal.payload(alloc, disk, at)?;
    let (position, _) = journal.place(at);
    carry_out(alloc, catalog, &payload, position)
}

// Carries out the commit that the payload at a position spells.
fn carry_out(
    alloc: Global,
    catalog: &mut Catalog,
    payload: &[u8],
    position: u64,
) -> Result<(), OpenFault>
    ensures carried { OnOk result
        (Carries payload.now (stored_of catalog.old) (stored_of catalog.new)) }
    ensures shown { OnOk result ((image rest : List ℕ) → drop position image ≡ payload.now ++ rest →
        AllShown (Some image) (filed_of catalog.old) →
        AllShown (Some image) (filed_of catalog.new)) }
    ensures means { OnOk result (Means (stored_of catalog.new) (state_of catalog.new)) }
    ensures strays { (place : ℕ) → IsErrOf result (OpenFault.NotWarehouse place) →
        CarriesNone payload.now (stored_of catalog.old) × (place ≡ position - 9) }
    ensures no_disk { IsErrOf result OpenFault.DiskFault → ⊥ }
{
    // A record's gate stands before the eight bytes of its length.
    let gate = position.saturating_sub(9);
    let Some(decoded) = decode_commit(alloc, payload) else {
        return Err(OpenFault::NotWarehouse { at: gate });
    };
    let commit = decoded?;
    match catalog.stage(commit, position) {
        Ok(undo) => {
            catalog.settle(undo);
            Ok(())
        }
        Err(StageFault::OutOfMemory) => Err(OpenFault::OutOfMemory),
        Err(StageFault::NotApplicable) => Err(OpenFault::NotWarehouse { at: gate }),
    }
}

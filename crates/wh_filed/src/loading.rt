//! Partitions that are asked for one after the other.
ghost use Rattle.std.specs.Prelude.{◌≡◌, Contains, IfOk};
ghost use Rattle.std.specs.Arc.{arc_value};
ghost use Rattle.wh_part.specs.declared.meta.PartMeta.{PartMeta};
ghost use Rattle.wh_fetch.specs.Fetch.{Asks};
ghost use Rattle.wh_fetch.specs.Device.{Counts};
ghost use Rattle.wh_fetch.specs.DiskFetch.{told_of, faults_of, damage_of, IsRight, GoesOn};
ghost use Rattle.wh_filed.specs.Filed.{filed_at, partitions_at, loaded_of, AllShown};
ghost use Rattle.wh_filed.specs.Fetching.{IsShownBy, AllShownBy, IsCovered, AllCovered};
ghost use Rattle.wh_filed.specs.Asking.{id_of, AsksFor};

use crate::FiledPartition;
use std::alloc::Global;
use std::sync::Arc;
use wh_fetch::{DiskFetch, Fetch, FetchFault};
use wh_part::Partition;
use wh_world::Disk;

/// The partitions, in order, from what is kept or from the disk.
pub fn load<D: Disk>(
    alloc: Global,
    filed: &[&FiledPartition],
    fetch: &mut DiskFetch<D>,
) -> Result<Vec<Arc<Partition>>, FetchFault>
    requires { IsRight D.Disk fetch.old }
    ensures loaded { AllShown (told_of D.Disk fetch.old) (filed_at filed.now)
        → IfOk result (λ loaded. loaded_of loaded.items ≡ partitions_at filed.now) }
    ensures sound { AllShown (told_of D.Disk fetch.old) (filed_at filed.now)
        → damage_of fetch.new ≡ damage_of fetch.old }
    ensures asks { AsksFor (Contains (filed_at filed.now))
        fetch.old.asked.items fetch.new.asked.items }
    ensures same { told_of D.Disk fetch.new ≡ told_of D.Disk fetch.old }
    ensures goes { GoesOn D.Disk fetch.old fetch.new }
    ensures counts { Counts (faults_of D.Disk fetch.old) (faults_of D.Disk fetch.new) result }
{
    fetch_all(alloc, filed, fetch)
}

/// The partitions, in order, from any fetch.
pub fn fetch_all<F: Fetch>(
    alloc: Global,
    filed: &[&FiledPartition],
    fetch: &mut F,
) -> Result<Vec<Arc<Partition>>, FetchFault>
    requires { AllCovered (F.covers fetch.old) (filed_at filed.now) }
    ensures loaded { AllShownBy (F.contents fetch.old) (filed_at filed.now)
        → IfOk result (λ loaded. loaded_of loaded.items ≡ partitions_at filed.now) }
    ensures sound { AllShownBy (F.contents fetch.old) (filed_at filed.now)
        → F.damage fetch.new ≡ F.damage fetch.old }
    ensures asks { AsksFor (Contains (filed_at filed.now)) (F.asked fetch.old) (F.asked fetch.new) }
    ensures same { F.contents fetch.new ≡ F.contents fetch.old }
    ensures goes { F.stays fetch.old fetch.new }
    ensures counts { Counts (F.faults fetch.old) (F.faults fetch.new) result }
{
    let mut loaded = Vec::new(alloc);
    for one in filed {
        let found = fetch_one(one, fetch)?;
        loaded.push(found)?;
    }
    Ok(loaded)
}

/// The partition, from any fetch.
pub fn fetch_one<F: Fetch>(
    filed: &FiledPartition,
    fetch: &mut F,
) -> Result<Arc<Partition>, FetchFault>
    requires { IsCovered (F.covers fetch.old) filed.now }
    ensures loaded { IsShownBy (F.contents fetch.old) filed.now
        → IfOk result (λ found. arc_value found ≡ filed.now.partition) }
    ensures sound { IsShownBy (F.contents fetch.old) filed.now
        → F.damage fetch.new ≡ F.damage fetch.old }
    ensures asks { Asks result (id_of filed.now) (F.asked fetch.old) (F.asked fetch.new) }
    ensures same { F.contents fetch.new ≡ F.contents fetch.old }
    ensures covered { (part : PartMeta) → F.covers fetch.old part → F.covers fetch.new part }
    ensures goes { F.stays fetch.old fetch.new }
    ensures counts { Counts (F.faults fetch.old) (F.faults fetch.new) result }
{
    fetch.fetch(filed.meta())
}

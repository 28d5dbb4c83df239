//! What came with the versions behind a stamp, loaded.
ghost use Rattle.std.specs.Prelude.{◌≡◌, ◌≤◌, length, IfOk};
ghost use Rattle.std.specs.List.{AllByRecursion};
ghost use Rattle.wh_fetch.specs.Device.{Counts};
ghost use Rattle.wh_fetch.specs.DiskFetch.{told_of, faults_of, damage_of, IsRight, GoesOn};
ghost use Rattle.wh_filed.specs.Filed.{filed_at, partitions_at, loaded_of, AllShown, AreAmong};
ghost use Rattle.wh_table.specs.Table.{table_of, filed_of};
ghost use Rattle.wh_change.specs.Appended.{arrivals_at, arrived_of, CameBetween, IsAppended};
ghost use Rattle.wh_change.specs.Appended.{EachShown};

use crate::Appended;
use crate::arrived::Arrived;
use crate::meeting::those_meeting;
use std::alloc::{AllocError, Global};
use wh_fetch::{DiskFetch, FetchFault};
use wh_filed::load;
use wh_table::StoredTable;
use wh_version::Arrivals;
use wh_world::Disk;

/// What came with each version behind a stamp, and of the partitions that came in front those that
/// may have a row number in common with it. No other partition is asked for.
pub fn appended<D: Disk>(
    alloc: Global,
    table: &StoredTable,
    from: u64,
    fetch: &mut DiskFetch<D>,
) -> Result<Appended, FetchFault>
    requires { IsRight D.Disk fetch.old }
    ensures appended { AllShown (told_of D.Disk fetch.old) (filed_of table.now)
        → IfOk result (λ found. IsAppended from found (table_of table.now).versions) }
    ensures sound { AllShown (told_of D.Disk fetch.old) (filed_of table.now)
        → damage_of fetch.new ≡ damage_of fetch.old }
    ensures same { told_of D.Disk fetch.new ≡ told_of D.Disk fetch.old }
    ensures goes { GoesOn D.Disk fetch.old fetch.new }
    ensures counts { Counts (faults_of D.Disk fetch.old) (faults_of D.Disk fetch.new) result }
{
    let front = table.front(alloc, from)?;
    let arrivals = arrivals_from(alloc, table, front.count)?;
    let near = those_meeting(alloc, &front.came, &arrivals)?;
    let seen = load(alloc, &near, fetch)?;
    let later = load_each(alloc, &arrivals, fetch)?;
    Ok(Appended { seen, later })
}

// What came with the versions from a place on.
fn arrivals_from(
    alloc: Global,
    table: &StoredTable,
    first: usize,
) -> Result<Vec<Arrivals<'_>>, AllocError>
    requires { first ≤ length (table_of table.now).versions }
    ensures came { IfOk result (λ found. CameBetween first (length (table_of table.now).versions)
        (arrivals_at found.items) (table_of table.now).versions) }
    ensures among { IfOk result (λ found.
        AllByRecursion (λ a. AreAmong (filed_at a.came.items) (filed_of table.now)) found.items) }
{
    let mut found = Vec::new(alloc);
    let count = table.version_count();
    for place in first..count {
        let arrivals = table.arrivals(alloc, place)?;
        found.push(arrivals)?;
    }
    Ok(found)
}

fn load_each<D: Disk>(
    alloc: Global,
    later: &[Arrivals<'_>],
    fetch: &mut DiskFetch<D>,
) -> Result<Vec<Arrived>, FetchFault>
    requires { IsRight D.Disk fetch.old }
    ensures loaded { EachShown (told_of D.Disk fetch.old) later.now
        → IfOk result (λ found. arrived_of found.items ≡ arrivals_at later.now) }
    ensures sound { EachShown (told_of D.Disk fetch.old) later.now
        → damage_of fetch.new ≡ damage_of fetch.old }
    ensures same { told_of D.Disk fetch.new ≡ told_of D.Disk fetch.old }
    ensures goes { GoesOn D.Disk fetch.old fetch.new }
    ensures counts { Counts (faults_of D.Disk fetch.old) (faults_of D.Disk fetch.new) result }
{
    let mut found = Vec::with_capacity(alloc, later.len())?;
    for arrivals in later {
        let arrived = load_one(alloc, arrivals, fetch)?;
        found.push(arrived)?;
    }
    Ok(found)
}

fn load_one<D: Disk>(
    alloc: Global,
    arrivals: &Arrivals<'_>,
    fetch: &mut DiskFetch<D>,
) -> Result<Arrived, FetchFault>
    requires { IsRight D.Disk fetch.old }
    ensures loaded { AllShown (told_of D.Disk fetch.old) (filed_at arrivals.now.came.items)
        → IfOk result (λ found. (found.stamp ≡ arrivals.now.stamp)
        × (loaded_of found.came.items ≡ partitions_at arrivals.now.came.items)) }
    ensures sound { AllShown (told_of D.Disk fetch.old) (filed_at arrivals.now.came.items)
        → damage_of fetch.new ≡ damage_of fetch.old }
    ensures same { told_of D.Disk fetch.new ≡ told_of D.Disk fetch.old }
    ensures goes { GoesOn D.Disk fetch.old fetch.new }
    ensures counts { Counts (faults_of D.Disk fetch.old) (faults_of D.Disk fetch.new) result }
{
    let came = load(alloc, &arrivals.came, fetch)?;
    Ok(Arrived {
        stamp: arrivals.stamp,
        came,
    })
}

ghost use Rattle.std.specs.Prelude.{◌≡◌, ◌≤◌, IfOk};
ghost use Rattle.wh_fetch.specs.Device.{Counts};
ghost use Rattle.wh_fetch.specs.DiskFetch.{told_of, faults_of, damage_of, IsRight, GoesOn};
ghost use Rattle.wh_filed.specs.Filed.{AllShown};
ghost use Rattle.wh_filed.specs.Asking.{AsksFor};
ghost use Rattle.wh_version.specs.Moved.{IsMoved};
ghost use Rattle.wh_state.specs.State.{rows_at};
ghost use Rattle.wh_state.specs.Stored.{table_meant};
ghost use Rattle.wh_table.specs.Table.{table_of, filed_of};
ghost use Rattle.wh_change.specs.TurnedOver.{IsTurnedOver};

use std::alloc::Global;
use std::sync::Arc;
use wh_fetch::{DiskFetch, FetchFault};
use wh_filed::load;
use wh_part::Partition;
use wh_table::StoredTable;
use wh_world::Disk;

/// The partitions that one of two versions has and the other hasn't, at hand.
#[derive(Debug, Drop)]
pub struct TurnedOver {
    pub(crate) went: Vec<Arc<Partition>>,
    pub(crate) came: Vec<Arc<Partition>>,
}

/// What went and came between the versions of two times. No partition is asked for that both have.
pub fn turned_over<D: Disk>(
    alloc: Global,
    table: &StoredTable,
    from: u64,
    to: u64,
    fetch: &mut DiskFetch<D>,
) -> Result<TurnedOver, FetchFault>
    requires order { from ≤ to }
    requires right { IsRight D.Disk fetch.old }
    ensures turned { AllShown (told_of D.Disk fetch.old) (filed_of table.now)
        → IfOk result (λ turned. IsTurnedOver turned
        (rows_at (table_meant (table_of table.now)) from)
        (rows_at (table_meant (table_of table.now)) to)) }
    ensures sound { AllShown (told_of D.Disk fetch.old) (filed_of table.now)
        → damage_of fetch.new ≡ damage_of fetch.old }
    ensures asks { AsksFor (IsMoved from to (table_of table.now).versions (filed_of table.now))
        fetch.old.asked.items fetch.new.asked.items }
    ensures same { told_of D.Disk fetch.new ≡ told_of D.Disk fetch.old }
    ensures goes { GoesOn D.Disk fetch.old fetch.new }
    ensures counts { Counts (faults_of D.Disk fetch.old) (faults_of D.Disk fetch.new) result }
{
    let turnover = table.turnover(alloc, from, to)?;
    let went = load(alloc, &turnover.went, fetch)?;
    let came = load(alloc, &turnover.came, fetch)?;
    Ok(TurnedOver { went, came })
}

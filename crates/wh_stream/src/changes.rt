//! The changes that a stream shows, as its source's table keeps them.
ghost use Rattle.std.specs.Prelude.{◌≡◌, IfOk};
ghost use Rattle.wh_fetch.specs.Device.{Counts};
ghost use Rattle.wh_fetch.specs.DiskFetch.{told_of, faults_of, damage_of, IsRight, GoesOn};
ghost use Rattle.wh_filed.specs.Filed.{AllShown};
ghost use Rattle.wh_filed.specs.Asking.{AsksFor};
ghost use Rattle.wh_state.specs.Stored.{table_meant};
ghost use Rattle.wh_net.specs.Stream.{shown};
ghost use Rattle.wh_table.specs.Table as tables;
ghost use Rattle.wh_table.specs.Table.{table_of};
ghost use Rattle.wh_catalog.specs.Catalog.{state_of, filed_of};
ghost use Rattle.wh_catalog.specs.Stream.{stream_of};
ghost use Rattle.wh_stream.specs.Asked.{IsStandard, IsMovedIn, IsMovedFor};
ghost use Rattle.wh_stream.specs.Loaded.{Gives};
ghost use Rattle.wh_stream.specs.Shown.{records_shown};

use crate::loaded::Loaded;
use std::alloc::Global;
use wh_catalog::{Catalog, StoredStream};
use wh_change::{appended, turned_over};
use wh_fetch::{DiskFetch, FetchFault};
use wh_table::StoredTable;
use wh_world::Disk;

/// What the changes behind the stream's offset are made of, up to the start.
#[tactic(auto, using(wh_fetch::specs::DiskFetch::goes_none))]
pub(crate) fn changes_behind<D: Disk>(
    alloc: Global,
    catalog: &Catalog,
    stream: &StoredStream,
    start: u64,
    fetch: &mut DiskFetch<D>,
) -> Result<Loaded, FetchFault>
    requires { IsRight D.Disk fetch.old }
    ensures given { AllShown (told_of D.Disk fetch.old) (filed_of catalog.now)
        → IfOk result (λ found. Gives found
        (records_shown (state_of catalog.now).objects (stream_of stream.now) start)) }
    ensures asks { IsStandard (stream_of stream.now)
        → AsksFor (IsMovedFor catalog.now (stream_of stream.now) start)
        fetch.old.asked.items fetch.new.asked.items }
    ensures sound { AllShown (told_of D.Disk fetch.old) (filed_of catalog.now)
        → damage_of fetch.new ≡ damage_of fetch.old }
    ensures same { told_of D.Disk fetch.new ≡ told_of D.Disk fetch.old }
    ensures goes { GoesOn D.Disk fetch.old fetch.new }
    ensures counts { Counts (faults_of D.Disk fetch.old) (faults_of D.Disk fetch.new) result }
{
    match catalog.table(stream.source()) {
        Some(table) => changes_of(alloc, table, stream, start, fetch),
        None => Ok(Loaded::Nothing),
    }
}

#[tactic(auto, using(wh_fetch::specs::DiskFetch::goes_none), unfolding(wh_net::specs::Stream::shown))]
fn changes_of<D: Disk>(
    alloc: Global,
    table: &StoredTable,
    stream: &StoredStream,
    start: u64,
    fetch: &mut DiskFetch<D>,
) -> Result<Loaded, FetchFault>
    requires { IsRight D.Disk fetch.old }
    ensures given { AllShown (told_of D.Disk fetch.old) (tables.filed_of table.now)
        → IfOk result (λ found. Gives found
        (shown (table_meant (table_of table.now)) (stream_of stream.now) start)) }
    ensures asks { IsStandard (stream_of stream.now)
        → AsksFor (IsMovedIn table.now (stream_of stream.now) start)
        fetch.old.asked.items fetch.new.asked.items }
    ensures sound { AllShown (told_of D.Disk fetch.old) (tables.filed_of table.now)
        → damage_of fetch.new ≡ damage_of fetch.old }
    ensures same { told_of D.Disk fetch.new ≡ told_of D.Disk fetch.old }
    ensures goes { GoesOn D.Disk fetch.old fetch.new }
    ensures counts { Counts (faults_of D.Disk fetch.old) (faults_of D.Disk fetch.new) result }
{
    let offset = stream.offset();
    if start <= offset {
        return Ok(Loaded::Nothing);
    }
    if stream.is_append_only() {
        let found = appended(alloc, table, offset, fetch)?;
        return Ok(Loaded::Arrived(found, offset, start));
    }
    let turned = turned_over(alloc, table, offset, start, fetch)?;
    Ok(Loaded::Turned(turned))
}

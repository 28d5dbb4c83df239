//! What a statement that reads a stream is told.
ghost use Rattle.std.specs.Prelude.{◌≡◌, option_map, IfOk};
ghost use Rattle.wh_fetch.specs.Device.{Counts};
ghost use Rattle.wh_fetch.specs.DiskFetch.{told_of, faults_of, damage_of, IsRight, GoesOn};
ghost use Rattle.wh_filed.specs.Filed.{AllShown};
ghost use Rattle.wh_filed.specs.Asking.{AsksFor};
ghost use Rattle.wh_net.specs.Stream.{rows_shown, has_rows, is_gone, stale_at};
ghost use Rattle.wh_catalog.specs.Catalog.{state_of, filed_of};
ghost use Rattle.wh_catalog.specs.Stream.{stream_of};
ghost use Rattle.wh_stream.specs.Asked.{IsStandard, IsMovedFor};

use crate::changes::changes_behind;
use crate::rows::shown_rows;
use crate::staleness::{Stale, stale_by};
use std::alloc::Global;
use wh_catalog::{Catalog, StoredStream};
use wh_fetch::{DiskFetch, FetchFault};
use wh_value::Row;
use wh_world::Disk;

/// What the stream shows up to a start: the changes of its source behind its offset, each as a row
/// of the source's values with the action, whether it is an update, and the row's id behind them.
pub fn show<D: Disk>(
    alloc: Global,
    catalog: &Catalog,
    stream: &StoredStream,
    start: u64,
    fetch: &mut DiskFetch<D>,
) -> Result<Vec<Row>, FetchFault>
    requires { IsRight D.Disk fetch.old }
    ensures shown { AllShown (told_of D.Disk fetch.old) (filed_of catalog.now)
        → IfOk result (λ rows. rows.items
        ≡ rows_shown (state_of catalog.now).objects (stream_of stream.now) start) }
    ensures asks { IsStandard (stream_of stream.now)
        → AsksFor (IsMovedFor catalog.now (stream_of stream.now) start)
        fetch.old.asked.items fetch.new.asked.items }
    ensures sound { AllShown (told_of D.Disk fetch.old) (filed_of catalog.now)
        → damage_of fetch.new ≡ damage_of fetch.old }
    ensures same { told_of D.Disk fetch.new ≡ told_of D.Disk fetch.old }
    ensures goes { GoesOn D.Disk fetch.old fetch.new }
    ensures counts { Counts (faults_of D.Disk fetch.old) (faults_of D.Disk fetch.new) result }
{
    let found = changes_behind(alloc, catalog, stream, start, fetch)?;
    let records = found.changes(alloc)?;
    let rows = shown_rows(alloc, stream.source(), &records)?;
    Ok(rows)
}

/// Whether it shows a row up to a start. Makes none.
pub fn has_data<D: Disk>(
    alloc: Global,
    catalog: &Catalog,
    stream: &StoredStream,
    start: u64,
    fetch: &mut DiskFetch<D>,
) -> Result<bool, FetchFault>
    requires { IsRight D.Disk fetch.old }
    ensures shown { AllShown (told_of D.Disk fetch.old) (filed_of catalog.now)
        → IfOk result (λ has. has
        ≡ has_rows (rows_shown (state_of catalog.now).objects (stream_of stream.now) start)) }
    ensures asks { IsStandard (stream_of stream.now)
        → AsksFor (IsMovedFor catalog.now (stream_of stream.now) start)
        fetch.old.asked.items fetch.new.asked.items }
    ensures sound { AllShown (told_of D.Disk fetch.old) (filed_of catalog.now)
        → damage_of fetch.new ≡ damage_of fetch.old }
    ensures same { told_of D.Disk fetch.new ≡ told_of D.Disk fetch.old }
    ensures goes { GoesOn D.Disk fetch.old fetch.new }
    ensures counts { Counts (faults_of D.Disk fetch.old) (faults_of D.Disk fetch.new) result }
{
    let found = changes_behind(alloc, catalog, stream, start, fetch)?;
    let records = found.changes(alloc)?;
    Ok(!records.is_empty())
}

/// Whether it is a stream, and its source was dropped or replaced.
pub fn is_gone(catalog: &Catalog, id: u32) -> bool
    ensures { result ≡ is_gone (state_of catalog.now).objects id }
{
    match catalog.stream(id) {
        Some(stream) => !is_live(catalog, stream.source()),
        None => false,
    }
}

ghost use Rattle.wh_state.specs.Objects.{is_live_at};

fn is_live(catalog: &Catalog, id: u32) -> bool
    ensures { result ≡ is_live_at (state_of catalog.now).objects id }
{
    match catalog.object(id) {
        Some(object) => object.is_live(),
        None => false,
    }
}

/// The stream of an id, where its offset lies too far back to be read at a stamp.
pub fn stale(catalog: &Catalog, id: u32, stamp: u64) -> Option<Stale>
    ensures { option_map (λ stale. (stale.offset, stale.until)) result
        ≡ stale_at (state_of catalog.now).objects stamp id }
{
    let stream = catalog.stream(id)?;
    let table = catalog.table(stream.source())?;
    stale_by(table.retention(), stream.offset(), stamp)
}

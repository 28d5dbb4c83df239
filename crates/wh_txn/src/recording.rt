use crate::offsets::add_offsets;
use crate::transaction::Transaction;
use crate::{RecordFault, Sessions};
use std::alloc::{AllocError, Global};
use wh_catalog::{Catalog, StoredTable};
use wh_fetch::DiskFetch;
use wh_record::{Change, Commit, VersionChange};
use wh_value::Limit;
use wh_version::{Edits, Rewritten};
use wh_world::Disk;

impl Sessions {
    ghost use Rattle.std.specs.Prelude.{◌≡◌, Some, None, Ok, option_map, IfOk};
    ghost use Rattle.wh_fetch.specs.Device.{CountsIf};
    ghost use Rattle.wh_fetch.specs.DiskFetch.{told_of, damage_of, faults_of, IsRight, GoesOn};
    ghost use Rattle.wh_filed.specs.Filed.{AllShown};
    ghost use Rattle.wh_record.specs.View.{commit_of};
    ghost use Rattle.wh_catalog.specs.Catalog.{filed_of};
    ghost use Rattle.wh_machine.specs.Transaction as machine;
    ghost use Rattle.wh_machine.specs.Sessions.{transaction_in};
    ghost use Rattle.wh_txn.specs.View.{sessions_of};
    ghost use Rattle.wh_txn.specs.Fault.{is_read};
    ghost use Rattle.wh_txn.specs.Recording.{GivesCommit, IsAt, IsRead};

    /// The commit of a session's open transaction at a stamp: a version for each table that it
    /// touched, and then the offset of each stream that it read, where it is below the
    /// transaction's start. None exactly where it touched no table and read no stream, or where no
    /// transaction is open.
    pub fn commit_record<D: Disk>(
        &self,
        alloc: Global,
        catalog: &Catalog,
        session: u64,
        stamp: u64,
        fetch: &mut DiskFetch<D>,
    ) -> Result<Option<Commit>, RecordFault>
        requires { IsRight D.Disk fetch.old }
        ensures gives { AllShown (told_of D.Disk fetch.old) (filed_of catalog.now)
            → (t : machine.Transaction) → transaction_in (sessions_of self.now) session ≡ Some t
            → GivesCommit catalog.now stamp t result }

        // Over any disk.
        ensures closed { transaction_in (sessions_of self.now) session ≡ None → result ≡ Ok None }
        ensures timed { IfOk result (λ found. IsAt stamp (option_map commit_of found)) }
        ensures read { IfOk result (λ found. IsRead (option_map commit_of found)) }
        ensures same { told_of D.Disk fetch.new ≡ told_of D.Disk fetch.old }
        ensures sound { AllShown (told_of D.Disk fetch.old) (filed_of catalog.now)
            → damage_of fetch.new ≡ damage_of fetch.old }
        ensures goes { GoesOn D.Disk fetch.old fetch.new }
        ensures counts { CountsIf (is_read result)
            (faults_of D.Disk fetch.old) (faults_of D.Disk fetch.new) }
    {
        let Some(transaction) = self.transaction(session) else {
            return Ok(None);
        };
        let touched = touched(alloc, transaction)?;
        let start = transaction.start();
        let streams = &transaction.streams;
        commit(alloc, catalog, stamp, start, touched, streams, fetch)
    }
}

ghost use Rattle.std.specs.Prelude.{◌≡◌, ◌+◌, ◌≤◌, Some, None, false, nat_eq};
ghost use Rattle.std.specs.Prelude.{length, option_map, IfOk, OnOk};
ghost use Rattle.wh_value.specs.Limit.{bound};
ghost use Rattle.wh_value.specs.declared.limit.Limit.TheVariants as limits;
ghost use Rattle.wh_fetch.specs.Device.{CountsIf};
ghost use Rattle.wh_fetch.specs.DiskFetch.{told_of, damage_of, faults_of, IsRight, GoesOn};
ghost use Rattle.wh_filed.specs.Filed.{AllShown};
ghost use Rattle.wh_record.specs.View.{change_of, commit_of};
ghost use Rattle.wh_state.specs.Commit.{PushesVersion};
ghost use Rattle.wh_state.specs.Objects.{table_at};
ghost use Rattle.wh_table.specs.Table.{table_of};
ghost use Rattle.wh_catalog.specs.Catalog.{state_of, filed_of};
ghost use Rattle.wh_machine.specs.Transaction as machine;
ghost use Rattle.wh_txn.specs.View.{transaction_of};
ghost use Rattle.wh_txn.specs.Fault.{is_read};
ghost use Rattle.wh_txn.specs.Recording.{touched_at, touched_in, HasParts, GivesCommit};
ghost use Rattle.wh_txn.specs.Recording.{GivesVersions, AddsVersion, IsAt, IsRead, AreRead};

/// A table that a transaction touched, and its edits.
#[derive(Debug, Drop)]
pub(crate) struct TouchedTable {
    pub(crate) id: u32,
    pub(crate) edits: Edits,
}

/// The commit of a transaction with that start, which touched these tables and read these streams.
pub(crate) fn commit<D: Disk>(
    alloc: Global,
    catalog: &Catalog,
    stamp: u64,
    start: u64,
    touched: Vec<TouchedTable>,
    streams: &[u32],
    fetch: &mut DiskFetch<D>,
) -> Result<Option<Commit>, RecordFault>
    requires { IsRight D.Disk fetch.old }
    ensures gives { AllShown (told_of D.Disk fetch.old) (filed_of catalog.now)
        → (t : machine.Transaction) → HasParts t start touched.items streams.now
        → GivesCommit catalog.now stamp t result }
    ensures timed { IfOk result (λ found. IsAt stamp (option_map commit_of found)) }
    ensures read { IfOk result (λ found. IsRead (option_map commit_of found)) }
    ensures same { told_of D.Disk fetch.new ≡ told_of D.Disk fetch.old }
    ensures sound { AllShown (told_of D.Disk fetch.old) (filed_of catalog.now)
        → damage_of fetch.new ≡ damage_of fetch.old }
    ensures goes { GoesOn D.Disk fetch.old fetch.new }
    ensures counts { CountsIf (is_read result)
        (faults_of D.Disk fetch.old) (faults_of D.Disk fetch.new) }
{
    if is_idle(&touched, streams) {
        return Ok(None);
    }
    if let Some(id) = row_past(catalog, &touched) {
        return Err(RecordFault::Limit {
            id,
            which: Limit::RowNumber,
        });
    }
    let mut changes = versions(alloc, catalog, stamp, touched, fetch)?;
    add_offsets(&mut changes, catalog, start, streams)?;
    Ok(Some(Commit { stamp, changes }))
}

// Whether a transaction touched none of the tables and read none of the streams.
fn is_idle(touched: &[TouchedTable], streams: &[u32]) -> bool
    ensures { result ≡ nat_eq (length touched.now + length streams.now) 0 }
{
    touched.is_empty() && streams.is_empty()
}

// The tables that an open transaction touched, by rising ids. It keeps its edits.
fn touched(alloc: Global, transaction: &Transaction) -> Result<Vec<TouchedTable>, AllocError>
    ensures { IfOk result (λ touched. touched_at touched.items
        ≡ machine.touched (transaction_of transaction.now)) }
{
    let mut touched = Vec::new(alloc);
    for (id, staged) in &transaction.tables {
        if staged.is_touched {
            let edits = staged.edits.copy(alloc)?;
            touched.push(TouchedTable { id: *id, edits })?;
        }
    }
    Ok(touched)
}

// The first of these tables whose next row number would pass its limit.
fn row_past(catalog: &Catalog, touched: &[TouchedTable]) -> Option<u32>
    ensures { option_map (λ id. (id, limits.RowNumber)) result
        ≡ machine.first_past (machine.row_past (state_of catalog.now).objects) limits.RowNumber
        (touched_at touched.now) }
{
    for one in touched {
        if is_row_past(catalog, one) {
            return Some(one.id);
        }
    }
    None
}

fn is_row_past(catalog: &Catalog, one: &TouchedTable) -> bool
    ensures { result ≡ machine.row_past (state_of catalog.now).objects (touched_in one.now) }
{
    next_row(catalog, one.id) + one.edits.added().len() as u64 > Limit::RowNumber.bound()
}

/// The number that the next row of a table has.
pub(crate) fn next_row(catalog: &Catalog, id: u32) -> u64
    ensures number { result ≡ machine.next_row_of (table_at (state_of catalog.now).objects id) }
    ensures bounded { result ≤ bound limits.RowNumber }
{
    match catalog.table(id) {
        Some(table) => table.next_row(),
        None => 1,
    }
}

// A version for each of these tables.
fn versions<D: Disk>(
    alloc: Global,
    catalog: &Catalog,
    stamp: u64,
    touched: Vec<TouchedTable>,
    fetch: &mut DiskFetch<D>,
) -> Result<Vec<Change>, RecordFault>
    requires right { IsRight D.Disk fetch.old }
    requires within { machine.first_past (machine.row_past (state_of catalog.now).objects)
        limits.RowNumber (touched_at touched.items) ≡ None }
    ensures gives { AllShown (told_of D.Disk fetch.old) (filed_of catalog.now)
        → GivesVersions catalog.now stamp touched.items result }
    ensures read { IfOk result (λ changes. AreRead changes.items) }
    ensures same { told_of D.Disk fetch.new ≡ told_of D.Disk fetch.old }
    ensures sound { AllShown (told_of D.Disk fetch.old) (filed_of catalog.now)
        → damage_of fetch.new ≡ damage_of fetch.old }
    ensures goes { GoesOn D.Disk fetch.old fetch.new }
    ensures counts { CountsIf (is_read result)
        (faults_of D.Disk fetch.old) (faults_of D.Disk fetch.new) }
{
    let mut changes = Vec::new(alloc);
    for one in touched {
        add_version(&mut changes, alloc, catalog, stamp, one, fetch)?;
    }
    Ok(changes)
}

// Adds a version of a table, where the catalog has it.
fn add_version<D: Disk>(
    changes: &mut Vec<Change>,
    alloc: Global,
    catalog: &Catalog,
    stamp: u64,
    one: TouchedTable,
    fetch: &mut DiskFetch<D>,
) -> Result<(), RecordFault>
    requires right { IsRight D.Disk fetch.old }
    requires within { machine.row_past (state_of catalog.now).objects (touched_in one) ≡ false }
    ensures adds { AllShown (told_of D.Disk fetch.old) (filed_of catalog.now)
        → AddsVersion catalog.now stamp one changes.old.items changes.new.items result }
    ensures read { OnOk result (AreRead changes.old.items → AreRead changes.new.items) }
    ensures same { told_of D.Disk fetch.new ≡ told_of D.Disk fetch.old }
    ensures sound { AllShown (told_of D.Disk fetch.old) (filed_of catalog.now)
        → damage_of fetch.new ≡ damage_of fetch.old }
    ensures goes { GoesOn D.Disk fetch.old fetch.new }
    ensures counts { CountsIf (is_read result)
        (faults_of D.Disk fetch.old) (faults_of D.Disk fetch.new) }
{
    let TouchedTable { id, edits } = one;
    let Some(table) = catalog.table(id) else {
        return Ok(());
    };
    let more = edits.added().len() as u64;
    let Some(rewritten) = table.rewrite(alloc, edits, fetch)? else {
        return Err(RecordFault::Limit {
            id,
            which: Limit::PartitionNumber,
        });
    };
    let change = version(stamp, id, more, table, rewritten);
    let Ok(()) = changes.push(change) else {
        return Err(RecordFault::OutOfMemory);
    };
    Ok(())
}

// A version of the table with these partitions in the place of others, and so many rows more.
fn version(stamp: u64, id: u32, more: u64, table: &StoredTable, rewritten: Rewritten) -> Change
    requires { (table_of table.now).next_row + more ≤ bound limits.RowNumber }
    ensures { change_of result ≡ PushesVersion (record {
      id = id;
      data_timestamp = stamp;
      next_row = (table_of table.now).next_row + more;
      width = length (table_of table.now).columns;
      removed = rewritten.removed.items;
      added = rewritten.added.items;
    }) }
{
    let Rewritten { removed, added } = rewritten;
    Change::PushesVersion(VersionChange {
        id,
        data_timestamp: stamp,
        next_row: table.next_row() + more,
        width: table.columns().len() as u32,
        removed,
        added,
    })
}

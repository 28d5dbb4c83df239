ghost use Rattle.std.specs.Prelude.{◌≡◌, option_map, IfOk};
ghost use Rattle.wh_fetch.specs.Device.{CountsIf};
ghost use Rattle.wh_fetch.specs.DiskFetch.{told_of, damage_of, faults_of, IsRight, GoesOn};
ghost use Rattle.wh_filed.specs.Filed.{AllShown};
ghost use Rattle.wh_dml.specs.View.{effect_of};
ghost use Rattle.wh_record.specs.View.{commit_of};
ghost use Rattle.wh_catalog.specs.Catalog.{state_of, filed_of};
ghost use Rattle.wh_txn.specs.View.{transaction_of};
ghost use Rattle.wh_txn.specs.Fault.{is_read};
ghost use Rattle.wh_txn.specs.Recording.{touched_at, touched_of, GivesCommit, IsAt, IsRead};
ghost use Rattle.wh_txn.specs.Lone.{lone};

use crate::RecordFault;
use crate::recording::{TouchedTable, commit, next_row};
use crate::staging::{edits, is_some_counted};
use crate::transaction::{Staged, Transaction};
use std::alloc::{AllocError, Global};
use std::collections::BTreeMap;
use wh_catalog::Catalog;
use wh_dml::Effect;
use wh_fetch::DiskFetch;
use wh_record::Commit;
use wh_world::Disk;

/// The commit of a transaction by itself, which begins at a stamp and stages one effect on a table,
/// by a statement that reads these streams. None exactly where no row counts and no stream is read.
/// The effect's rows are moved into it.
pub fn lone_commit<D: Disk>(
    alloc: Global,
    catalog: &Catalog,
    stamp: u64,
    id: u32,
    streams: &[u32],
    effect: Effect,
    fetch: &mut DiskFetch<D>,
) -> Result<Option<Commit>, RecordFault>
    requires { IsRight D.Disk fetch.old }
    ensures gives { AllShown (told_of D.Disk fetch.old) (filed_of catalog.now)
        → GivesCommit catalog.now stamp
        (lone (state_of catalog.now) stamp id streams.now (effect_of effect)) result }

    // Over any disk.
    ensures timed { IfOk result (λ found. IsAt stamp (option_map commit_of found)) }
    ensures read { IfOk result (λ found. IsRead (option_map commit_of found)) }
    ensures same { told_of D.Disk fetch.new ≡ told_of D.Disk fetch.old }
    ensures sound { AllShown (told_of D.Disk fetch.old) (filed_of catalog.now)
        → damage_of fetch.new ≡ damage_of fetch.old }
    ensures goes { GoesOn D.Disk fetch.old fetch.new }
    ensures counts { CountsIf (is_read result)
        (faults_of D.Disk fetch.old) (faults_of D.Disk fetch.new) }
{
    let transaction = alone(alloc, catalog, stamp, id, streams, effect)?;
    let start = transaction.start();
    let Transaction {
        tables,
        streams,
        ..
    } = transaction;
    let touched = touched(alloc, tables)?;
    commit(alloc, catalog, stamp, start, touched, &streams, fetch)
}

// The transaction, before its commit.
fn alone(
    alloc: Global,
    catalog: &Catalog,
    stamp: u64,
    id: u32,
    streams: &[u32],
    effect: Effect,
) -> Result<Transaction, AllocError>
    ensures { IfOk result (λ transaction. transaction_of transaction
        ≡ lone (state_of catalog.now) stamp id streams.now (effect_of effect)) }
{
    let touches = is_some_counted(&effect);
    let later = edits(alloc, effect)?;
    let next = next_row(catalog, id);
    let mut transaction = Transaction::begun(alloc, stamp);
    transaction.stage(alloc, id, streams, next, later, touches)?;
    Ok(transaction)
}

// Those of a transaction's tables that were touched, by rising ids. Their edits are moved.
fn touched(alloc: Global, tables: BTreeMap<u32, Staged>) -> Result<Vec<TouchedTable>, AllocError>
    ensures { IfOk result (λ touched. touched_at touched.items ≡ touched_of tables.entries) }
{
    let mut touched = Vec::new(alloc);
    for (id, staged) in tables {
        let Staged { edits, is_touched } = staged;
        if is_touched {
            touched.push(TouchedTable { id, edits })?;
        }
    }
    Ok(touched)
}

//! Where the rows of a table stand as a statement sees it. Rows that its edits don't touch aren't
//! read.

use crate::Sessions;
use crate::transaction::Staged;
use std::alloc::Global;
use wh_catalog::{Catalog, StoredTable};
use wh_fetch::{DiskFetch, FetchFault};
use wh_filed::FiledPartition;
use wh_part::Partition;
use wh_world::Disk;

/// Where the rows of a table stand as a statement sees it: the partitions of its last version that
/// stay, and those that the edits of the session's own transaction make in the place of others.
/// Both have nothing where no table has the id.
#[derive(Debug, Drop)]
pub struct TableAt<'a> {
    pub filed: Vec<&'a FiledPartition>,
    pub made: Vec<Partition>,
}

impl Sessions {
    ghost use Rattle.std.specs.Prelude.{◌≡◌, ℕ, option_map, IfOk};
    ghost use Rattle.wh_fetch.specs.Device.{Counts};
    ghost use Rattle.wh_fetch.specs.DiskFetch.{told_of, damage_of, faults_of, IsRight, GoesOn};
    ghost use Rattle.wh_filed.specs.Filed.{filed_at, AllShown, AreAmong};
    ghost use Rattle.wh_state.specs.State.{stamped};
    ghost use Rattle.wh_state.specs.Objects.{table_at};
    ghost use Rattle.wh_catalog.specs.Catalog.{state_of, filed_of};
    ghost use Rattle.wh_machine.specs.Transaction.{seen};
    ghost use Rattle.wh_machine.specs.Sessions.{transaction_in};
    ghost use Rattle.wh_txn.specs.View.{staged_of, sessions_of};
    ghost use Rattle.wh_txn.specs.Seen.{StandsAt, own};

    /// Where the rows of the table of an id stand as a statement of a session sees it: those of its
    /// last version, with the edits of the session's own transaction on it.
    pub fn at<'a, D: Disk>(
        &self,
        alloc: Global,
        catalog: &'a Catalog,
        session: u64,
        id: u32,
        fetch: &mut DiskFetch<D>,
    ) -> Result<TableAt<'a>, FetchFault>
        requires { IsRight D.Disk fetch.old }
        ensures stands { AllShown (told_of D.Disk fetch.old) (filed_of catalog.now)
            → IfOk result (λ found. (stamp : ℕ) → StandsAt found (table_at
            (seen (stamped (state_of catalog.now) stamp)
            (transaction_in (sessions_of self.now) session)).objects id)) }
        ensures among { IfOk result (λ found.
            AreAmong (filed_at found.filed.items) (filed_of catalog.now)) }
        ensures same { told_of D.Disk fetch.new ≡ told_of D.Disk fetch.old }
        ensures sound { AllShown (told_of D.Disk fetch.old) (filed_of catalog.now)
            → damage_of fetch.new ≡ damage_of fetch.old }
        ensures goes { GoesOn D.Disk fetch.old fetch.new }
        ensures counts { Counts (faults_of D.Disk fetch.old) (faults_of D.Disk fetch.new) result }
    {
        let Some(table) = catalog.table(id) else {
            return Ok(TableAt::of(alloc, Vec::new(alloc)));
        };
        let Some(staged) = self.staged(session, id) else {
            let filed = table.standing(alloc)?;
            return Ok(TableAt::of(alloc, filed));
        };
        edited(alloc, table, staged, fetch)
    }

    // What a session's transaction has staged for the table of an id.
    fn staged(&self, session: u64, id: u32) -> Option<&Staged>
        ensures { option_map (λ s. staged_of s.now) result
            ≡ own (transaction_in (sessions_of self.now) session) id }
    {
        let transaction = self.transaction(session)?;
        transaction.staged(id)
    }
}

impl<'a> TableAt<'a> {
    ghost use Rattle.std.specs.Prelude.{◌≡◌};
    ghost use Rattle.wh_filed.specs.Filed.{filed_at, partitions_at};
    ghost use Rattle.wh_txn.specs.Seen.{partitions_standing};

    // Without partitions that edits make.
    fn of(alloc: Global, filed: Vec<&'a FiledPartition>) -> TableAt<'a>
        ensures partitions { partitions_standing result ≡ partitions_at filed.entry.items }
        ensures filed { filed_at result.filed.items ≡ filed_at filed.entry.items }
    {
        TableAt {
            filed,
            made: Vec::new(alloc),
        }
    }
}

ghost use Rattle.std.specs.Prelude.{◌≡◌, ℕ, Some, IfOk};
ghost use Rattle.wh_fetch.specs.Device.{Counts};
ghost use Rattle.wh_fetch.specs.DiskFetch.{told_of, damage_of, faults_of, IsRight, GoesOn};
ghost use Rattle.wh_filed.specs.Filed.{filed_at, AllShown, AreAmong};
ghost use Rattle.wh_state.specs.Act.{edited_table};
ghost use Rattle.wh_state.specs.Stored.{table_meant};
ghost use Rattle.wh_version.specs.Edits.{edits_in};
ghost use Rattle.wh_table.specs.Table as tables;
ghost use Rattle.wh_table.specs.Table.{table_of};
ghost use Rattle.wh_txn.specs.Seen.{StandsAt};

// The last version of a table with the edits that are staged.
fn edited<'a, D: Disk>(
    alloc: Global,
    table: &'a StoredTable,
    staged: &Staged,
    fetch: &mut DiskFetch<D>,
) -> Result<TableAt<'a>, FetchFault>
    requires { IsRight D.Disk fetch.old }
    ensures stands { AllShown (told_of D.Disk fetch.old) (tables.filed_of table.now)
        → IfOk result (λ found. (stamp : ℕ) → StandsAt found (Some (edited_table stamp stamp
        (edits_in staged.now.edits) (table_meant (table_of table.now))))) }
    ensures among { IfOk result (λ found.
        AreAmong (filed_at found.filed.items) (tables.filed_of table.now)) }
    ensures same { told_of D.Disk fetch.new ≡ told_of D.Disk fetch.old }
    ensures sound { AllShown (told_of D.Disk fetch.old) (tables.filed_of table.now)
        → damage_of fetch.new ≡ damage_of fetch.old }
    ensures goes { GoesOn D.Disk fetch.old fetch.new }
    ensures counts { Counts (faults_of D.Disk fetch.old) (faults_of D.Disk fetch.new) result }
{
    let edits = staged.edits.copy(alloc)?;
    let edited = table.edited(alloc, edits, fetch)?;
    let filed = table.staying(alloc, &edited)?;
    Ok(TableAt {
        filed,
        made: edited.added,
    })
}

//! What a change reads of its target.

use crate::Sessions;
use crate::touching::touched;
use std::alloc::{AllocError, Global};
use std::sync::Arc;
use wh_bound_change::Modification;
use wh_catalog::Catalog;
use wh_fetch::{DiskFetch, FetchFault};
use wh_filed::load;
use wh_part::Partition;
use wh_table::by_rows;
use wh_world::Disk;

/// A table as a change sees it: the partitions of its last version that were loaded, and those
/// that the edits of the session's own transaction make in the place of others. Both have nothing
/// where no table has the id.
#[derive(Debug, Drop)]
pub struct TableSeen {
    pub(crate) stored: Vec<Arc<Partition>>,
    pub(crate) made: Vec<Partition>,
}

impl Sessions {
    ghost use Rattle.std.specs.Prelude.{◌≡◌, ℕ, IfOk};
    ghost use Rattle.wh_fetch.specs.Device.{Counts};
    ghost use Rattle.wh_fetch.specs.DiskFetch.{told_of, damage_of, faults_of, IsRight, GoesOn};
    ghost use Rattle.wh_filed.specs.Filed.{AllShown};
    ghost use Rattle.wh_bound_change.specs.View.{change_of};
    ghost use Rattle.wh_state.specs.State.{stamped};
    ghost use Rattle.wh_state.specs.Objects.{table_at};
    ghost use Rattle.wh_catalog.specs.Catalog.{state_of, filed_of};
    ghost use Rattle.wh_machine.specs.Transaction.{seen};
    ghost use Rattle.wh_machine.specs.Sessions.{transaction_in};
    ghost use Rattle.wh_txn.specs.View.{sessions_of};
    ghost use Rattle.wh_txn.specs.Touched.{ShowsTo};

    /// What a change by a statement of a session sees of the table of an id: its last version, with
    /// the edits of the session's own transaction on it. A partition of the file in which the
    /// change leaves each row as it is, by what is known of it without its rows, isn't read.
    pub fn seen_by<D: Disk>(
        &self,
        alloc: Global,
        catalog: &Catalog,
        session: u64,
        id: u32,
        change: &Modification,
        fetch: &mut DiskFetch<D>,
    ) -> Result<TableSeen, FetchFault>
        requires { IsRight D.Disk fetch.old }
        ensures shows { AllShown (told_of D.Disk fetch.old) (filed_of catalog.now)
            → IfOk result (λ found. (stamp : ℕ) → ShowsTo (change_of change.now) found (table_at
            (seen (stamped (state_of catalog.now) stamp)
            (transaction_in (sessions_of self.now) session)).objects id)) }
        ensures same { told_of D.Disk fetch.new ≡ told_of D.Disk fetch.old }
        ensures sound { AllShown (told_of D.Disk fetch.old) (filed_of catalog.now)
            → damage_of fetch.new ≡ damage_of fetch.old }
        ensures goes { GoesOn D.Disk fetch.old fetch.new }
        ensures counts { Counts (faults_of D.Disk fetch.old) (faults_of D.Disk fetch.new) result }
    {
        let at = self.at(alloc, catalog, session, id, fetch)?;
        let touched = touched(alloc, &at.filed, change)?;
        let stored = load(alloc, &touched, fetch)?;
        Ok(TableSeen {
            stored,
            made: at.made,
        })
    }
}

impl TableSeen {
    ghost use Rattle.std.specs.Prelude.{◌≡◌, IfOk};
    ghost use Rattle.std.specs.FinMap.{entries};
    ghost use Rattle.wh_frame.specs.Spelling.{RisesFrom};
    ghost use Rattle.wh_state.specs.State.{Rows};
    ghost use Rattle.wh_table.specs.Rows.{all_rows, partitions_at};
    ghost use Rattle.wh_table.specs.Shown.{Holds};
    ghost use Rattle.wh_txn.specs.Seen.{partitions_of};

    /// Its partitions, by their rows: the row numbers rise from each to the next.
    pub fn by_rows(&self, alloc: Global) -> Result<Vec<&Partition>, AllocError>
        ensures rows { IfOk result (λ found. (rows : Rows) → Holds (partitions_of self.now) rows
            → all_rows (partitions_at found.items) ≡ entries rows) }
        ensures rising { IfOk result (λ found. RisesFrom 0 (all_rows (partitions_at found.items))) }
    {
        by_rows(alloc, &self.stored, &self.made)
    }
}

use crate::StoredTable;
use crate::fitting::are_apart;
use crate::gathering::at_hand;
use std::alloc::Global;
use wh_fetch::{Fetch, FetchFault};
use wh_part::Partition;
use wh_version::{Edits, Rewritten};

/// What edits that are in no version yet make of the table: the numbers of the partitions that go,
/// and those that come.
#[derive(Debug, Drop)]
pub struct EditedTable {
    pub(crate) removed: Vec<u64>,
    pub added: Vec<Partition>,
}

impl StoredTable {
    ghost use Rattle.std.specs.Prelude.{◌≡◌, Contains, IfOk, OnOk};
    ghost use Rattle.wh_fetch.specs.Device.{Counts};
    ghost use Rattle.wh_filed.specs.Fetching.{AllShownBy, AllCovered};
    ghost use Rattle.wh_filed.specs.Asking.{AsksFor};
    ghost use Rattle.wh_version.specs.Edits.{edits_in};
    ghost use Rattle.wh_table.specs.Edited.{IsEdited};
    ghost use Rattle.wh_table.specs.Table.{table_of, filed_of};

    /// What edits make of the last version, while they are in no version yet.
    pub fn edited<F: Fetch>(
        &self,
        alloc: Global,
        edits: Edits,
        fetch: &mut F,
    ) -> Result<EditedTable, FetchFault>
        requires { AllCovered (F.covers fetch.old) (filed_of self.now) }
        ensures edited { AllShownBy (F.contents fetch.old) (filed_of self.now)
            → IfOk result (λ edited. IsEdited edited (edits_in edits) (table_of self.now)) }
        ensures sound { AllShownBy (F.contents fetch.old) (filed_of self.now)
            → F.damage fetch.new ≡ F.damage fetch.old }
        ensures asks { OnOk result (AsksFor (Contains (filed_of self.now))
            (F.asked fetch.old) (F.asked fetch.new)) }
        ensures same { F.contents fetch.new ≡ F.contents fetch.old }
        ensures goes { F.stays fetch.old fetch.new }
        ensures counts { Counts (F.faults fetch.old) (F.faults fetch.new) result }
    {
        let candidates = self.history.candidates(alloc, &edits)?;
        let loaded = self.load_some(alloc, &candidates, fetch)?;
        let at_hand = at_hand(alloc, &loaded)?;
        let rewritten = self.history.edited(alloc, edits, self.next_row, &at_hand)?;
        let Rewritten { removed, added } = rewritten;
        // Only a file that no run leaves comes to partitions that aren't apart.
        if !are_apart(self.highest, &self.history, &removed, &added) {
            return Err(FetchFault::OutOfMemory);
        }
        Ok(EditedTable { removed, added })
    }
}

use crate::StoredTable;
use crate::gathering::at_hand;
use std::alloc::Global;
use wh_fetch::{Fetch, FetchFault};
use wh_version::{Edits, Rewritten};

impl StoredTable {
    ghost use Rattle.std.specs.Prelude.{◌≡◌, ◌+◌, ◌≤◌, length, nat_le, is_some, IfOk, IfSome};
    ghost use Rattle.wh_value.specs.Limit.{bound};
    ghost use Rattle.wh_value.specs.declared.limit.Limit.TheVariants as limits;
    ghost use Rattle.wh_fetch.specs.Device.{Counts};
    ghost use Rattle.wh_filed.specs.Fetching.{AllShownBy, AllCovered};
    ghost use Rattle.wh_state.specs.Stored.{standing};
    ghost use Rattle.wh_state.specs.Edits.{numbers_gone, partitions_made};
    ghost use Rattle.wh_version.specs.Edits.{edits_in};
    ghost use Rattle.wh_table.specs.Table.{table_of, filed_of};

    /// What edits make of the last version, by the cutting rule; rows that come are numbered from
    /// the next row on. None exactly where the next partition number would pass its limit.
    pub fn rewrite<F: Fetch>(
        &self,
        alloc: Global,
        edits: Edits,
        fetch: &mut F,
    ) -> Result<Option<Rewritten>, FetchFault>
        requires rows { (table_of self.now).next_row + length (edits_in edits).added
            ≤ bound limits.RowNumber }
        requires covered { AllCovered (F.covers fetch.old) (filed_of self.now) }
        ensures fits { AllShownBy (F.contents fetch.old) (filed_of self.now)
            → IfOk result (λ found. is_some found ≡ nat_le
            ((table_of self.now).next_partition + length (partitions_made
            (table_of self.now).next_partition (table_of self.now).next_row
            (edits_in edits) (standing (table_of self.now)))) (bound limits.PartitionNumber)) }
        ensures removed { AllShownBy (F.contents fetch.old) (filed_of self.now)
            → IfOk result (λ found. IfSome found (λ r. r.removed.items
            ≡ numbers_gone (edits_in edits).rows (standing (table_of self.now)))) }
        ensures added { AllShownBy (F.contents fetch.old) (filed_of self.now)
            → IfOk result (λ found. IfSome found (λ r. r.added.items
            ≡ partitions_made (table_of self.now).next_partition (table_of self.now).next_row
            (edits_in edits) (standing (table_of self.now)))) }
        ensures sound { AllShownBy (F.contents fetch.old) (filed_of self.now)
            → F.damage fetch.new ≡ F.damage fetch.old }
        ensures same { F.contents fetch.new ≡ F.contents fetch.old }
        ensures goes { F.stays fetch.old fetch.new }
        ensures counts { Counts (F.faults fetch.old) (F.faults fetch.new) result }
    {
        let candidates = self.history.candidates(alloc, &edits)?;
        let loaded = self.load_some(alloc, &candidates, fetch)?;
        let at_hand = at_hand(alloc, &loaded)?;
        let rewritten = self.history.rewrite(alloc, edits, self.next_row, &at_hand)?;
        Ok(rewritten)
    }
}

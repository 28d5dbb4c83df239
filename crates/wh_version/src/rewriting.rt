ghost use Rattle.std.specs.Prelude.{◌≡◌, ◌≤◌, ◌^◌, map, IfOk};
ghost use Rattle.wh_state.specs.Edits.{by_rows, edited, made_of, with_added};
ghost use Rattle.wh_filed.specs.Filed.{contents_at};

use crate::editing::left;
use crate::sorting::by_rows;
use crate::touching::{candidates, numbers, touched_among};
use crate::{Edits, History};
use std::alloc::{AllocError, Global};
use wh_filed::FiledPartition;
use wh_part::{Partition, cut};
use wh_value::Limit;

/// The partitions that edits leave behind: those that go, by rising number, and those that come.
#[derive(Debug, Drop)]
pub struct Rewritten {
    pub removed: Vec<u64>,
    pub added: Vec<Partition>,
}

impl History {
    ghost use Rattle.std.specs.Prelude.{◌≡◌, ◌+◌, ◌≤◌, length, nat_le, is_some, IfOk, IfSome};
    ghost use Rattle.std.specs.Prelude.{Contains};
    ghost use Rattle.std.specs.List.{AllByRecursion};
    ghost use Rattle.wh_value.specs.Limit.{bound};
    ghost use Rattle.wh_filed.specs.Filed.{filed_at, partitions_at, contents_at};
    ghost use Rattle.wh_state.specs.Commit.{NumberedFrom};
    ghost use Rattle.wh_state.specs.Edits.{numbers_gone, partitions_made};
    ghost use Rattle.wh_version.specs.Edits.{edits_in, HaveTouched};
    ghost use Rattle.wh_version.specs.History.{versions_of, filed_of, nexts_of};
    ghost use Rattle.wh_version.specs.History.{standing_in, next_in};

    /// Those of the last version's partitions whose rows `edited` and `rewrite` need: no other has
    /// a row that the edits name. No row is looked at.
    pub fn candidates(
        &self,
        alloc: Global,
        edits: &Edits,
    ) -> Result<Vec<&FiledPartition>, AllocError>
        ensures touched { IfOk result (λ found.
            HaveTouched self.now (edits_in edits.now) (partitions_at found.items)) }
        ensures among { IfOk result (λ found.
            AllByRecursion (Contains (filed_of self.now)) (filed_at found.items)) }
    {
        let found = candidates(alloc, &edits.rows, self.kept())?;
        Ok(found)
    }

    /// What edits make of the last version, by the cutting rule, whatever numbers come out. The
    /// partitions at hand are the candidates; whatever they are, what comes out can be pushed.
    pub fn edited(
        &self,
        alloc: Global,
        edits: Edits,
        next_row: u64,
        loaded: &[&Partition],
    ) -> Result<Rewritten, AllocError>
        ensures removed { HaveTouched self.now (edits_in edits) (contents_at loaded.now)
            → IfOk result (λ r. r.removed.items
            ≡ numbers_gone (edits_in edits).rows (standing_in (versions_of self.now))) }
        ensures added { HaveTouched self.now (edits_in edits) (contents_at loaded.now)
            → IfOk result (λ r. r.added.items
            ≡ partitions_made (next_in (nexts_of self.now)) next_row (edits_in edits)
            (standing_in (versions_of self.now))) }
        ensures numbers { IfOk result (λ r.
            NumberedFrom (next_in (nexts_of self.now)) r.added.items) }
    {
        let touched = touched_among(alloc, &edits.rows, loaded)?;
        let removed = numbers(alloc, &touched)?;
        let added = made(alloc, edits, &touched, self.next_partition(), next_row)?;
        Ok(Rewritten { removed, added })
    }

    /// What edits make of the last version, by the cutting rule. None exactly where the next
    /// partition number would pass its limit. The partitions at hand are the candidates.
    pub fn rewrite(
        &self,
        alloc: Global,
        edits: Edits,
        next_row: u64,
        loaded: &[&Partition],
    ) -> Result<Option<Rewritten>, AllocError>
        requires rows { next_row + length (edits_in edits).added ≤ bound Limit.RowNumber }
        ensures fits { HaveTouched self.now (edits_in edits) (contents_at loaded.now)
            → IfOk result (λ found. is_some found ≡ nat_le
            (next_in (nexts_of self.now) + length (partitions_made (next_in (nexts_of self.now))
            next_row (edits_in edits) (standing_in (versions_of self.now))))
            (bound Limit.PartitionNumber)) }
        ensures removed { HaveTouched self.now (edits_in edits) (contents_at loaded.now)
            → IfOk result (λ found. IfSome found (λ r. r.removed.items
            ≡ numbers_gone (edits_in edits).rows (standing_in (versions_of self.now)))) }
        ensures added { HaveTouched self.now (edits_in edits) (contents_at loaded.now)
            → IfOk result (λ found. IfSome found (λ r. r.added.items
            ≡ partitions_made (next_in (nexts_of self.now)) next_row (edits_in edits)
            (standing_in (versions_of self.now)))) }
        ensures numbers { IfOk result (λ found. IfSome found (λ r.
            NumberedFrom (next_in (nexts_of self.now)) r.added.items)) }
    {
        let rewritten = self.edited(alloc, edits, next_row, loaded)?;
        let behind = self.next_partition() + rewritten.added.len() as u64;
        if behind > Limit::PartitionNumber.bound() {
            return Ok(None);
        }
        Ok(Some(rewritten))
    }
}

// The partitions that come, in the places of those that are touched and of the rows that are added.
fn made(
    alloc: Global,
    edits: Edits,
    touched: &[&Partition],
    next: u64,
    next_row: u64,
) -> Result<Vec<Partition>, AllocError>
    requires { next ≤ 2 ^ 63 }
    ensures { IfOk result (λ made. made.items
        ≡ with_added next next_row edits.added.items (made_of next
        (map (λ p. edited edits.rows p.rows) (by_rows (contents_at touched.now))))) }
{
    let Edits { rows, added } = edits;
    let sorted = by_rows(alloc, touched)?;
    let mut made = left(alloc, &rows, &sorted, next)?;
    let behind = next + made.len() as u64;
    let count = added.len() as u64;
    // So many rows can't be numbered, and no memory has them.
    if count > u64::MAX - next_row || count > u64::MAX - behind {
        return Err(AllocError);
    }
    let mut more = cut(alloc, added, next_row, behind)?;
    made.append(&mut more)?;
    Ok(made)
}

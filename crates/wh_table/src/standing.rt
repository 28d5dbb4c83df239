//! The partitions of a version, as they stand in the file. No row of them is read.
ghost use Rattle.std.specs.Prelude.{◌≡◌, ◌&&◌, ◌++◌, ◌∷◌, [], List, not, filter};
ghost use Rattle.std.specs.Prelude.{Contains, OnOk, IfOk};
ghost use Rattle.std.specs.List.{AllByRecursion};
ghost use Rattle.wh_filed.specs.Filed.{Filed, filed_at, partitions_at};
ghost use Rattle.wh_state.specs.Edits.{without, is_among};
ghost use Rattle.wh_version.specs.Lasting.{is_standing, filed_in, partitions_in};

use crate::StoredTable;
use crate::comparing::is_among;
use crate::editing::EditedTable;
use std::alloc::{AllocError, Global};
use wh_filed::FiledPartition;
use wh_version::Lasting;

impl StoredTable {
    ghost use Rattle.std.specs.Prelude.{◌≡◌, ◌++◌, [], ℕ, Contains, IfOk};
    ghost use Rattle.std.specs.List.{AllByRecursion};
    ghost use Rattle.wh_filed.specs.Filed.{filed_at, partitions_at};
    ghost use Rattle.wh_state.specs.State as state;
    ghost use Rattle.wh_state.specs.State.{content_in, last_rows};
    ghost use Rattle.wh_state.specs.Edits as machine;
    ghost use Rattle.wh_state.specs.Act.{edited_table};
    ghost use Rattle.wh_state.specs.Stored.{table_meant};
    ghost use Rattle.wh_version.specs.Times.{data_at};
    ghost use Rattle.wh_table.specs.Edited.{IsEdited};
    ghost use Rattle.wh_table.specs.Shown.{HoldsRising};
    ghost use Rattle.wh_table.specs.Table.{table_of, filed_of};

    /// The partitions of the last version.
    pub fn standing(&self, alloc: Global) -> Result<Vec<&FiledPartition>, AllocError>
        ensures holds { IfOk result (λ found. HoldsRising (partitions_at found.items)
            (last_rows (table_meant (table_of self.now)))) }
        ensures among { IfOk result (λ found.
            AllByRecursion (Contains (filed_of self.now)) (filed_at found.items)) }
    {
        let standing = self.history.standing(alloc)?;
        Ok(standing)
    }

    /// Those of the last version that stands for no later moment.
    pub fn standing_at(
        &self,
        alloc: Global,
        moment: u64,
    ) -> Result<Vec<&FiledPartition>, AllocError>
        ensures holds { IfOk result (λ found. HoldsRising (partitions_at found.items)
            (state.rows_at (table_meant (table_of self.now)) moment)) }
        ensures among { IfOk result (λ found.
            AllByRecursion (Contains (filed_of self.now)) (filed_at found.items)) }
        ensures stand { IfOk result (λ found. partitions_at found.items
            ≡ content_in [] (data_at moment (table_of self.now).versions)) }
    {
        let Some(version) = self.history.at(moment) else {
            return Ok(Vec::new(alloc));
        };
        let standing = version.partitions(alloc)?;
        Ok(standing)
    }

    /// Those of the last version that stay where the edits are made. Behind them stand those that
    /// the edits add.
    pub fn staying(
        &self,
        alloc: Global,
        edited: &EditedTable,
    ) -> Result<Vec<&FiledPartition>, AllocError>
        ensures holds { IfOk result (λ found. (stamp : ℕ) (e : machine.Edits)
            → IsEdited edited.now e (table_of self.now)
            → HoldsRising (partitions_at found.items ++ edited.now.added.items)
            (last_rows (edited_table stamp stamp e (table_meant (table_of self.now))))) }
        ensures among { IfOk result (λ found.
            AllByRecursion (Contains (filed_of self.now)) (filed_at found.items)) }
    {
        let staying = standing_without(self.history.kept(), &edited.removed, alloc)?;
        Ok(staying)
    }
}

// Those that stand and aren't among the removed.
fn standing_without<'a>(
    kept: &'a [Lasting],
    removed: &[u64],
    alloc: Global,
) -> Result<Vec<&'a FiledPartition>, AllocError>
    ensures partitions { IfOk result (λ found. partitions_at found.items
        ≡ without removed.now (partitions_in (filter is_standing kept.now))) }
    ensures among { IfOk result (λ found.
        AllByRecursion (Contains (filed_in kept.now)) (filed_at found.items)) }
{
    let mut found = Vec::new(alloc);
    for one in kept {
        add_staying(&mut found, removed, one)?;
    }
    Ok(found)
}

fn add_staying<'a>(
    found: &mut Vec<&'a FiledPartition>,
    removed: &[u64],
    one: &'a Lasting,
) -> Result<(), AllocError>
    ensures added { OnOk result (partitions_at found.new.items ≡ partitions_at found.old.items
        ++ without removed.now (partitions_in (filter is_standing (one.now ∷ [])))) }
    ensures among { OnOk result ((all : List Filed) → Contains all one.now.filed
        → AllByRecursion (Contains all) (filed_at found.old.items)
        → AllByRecursion (Contains all) (filed_at found.new.items)) }
{
    if stays(one, removed) {
        found.push(one.filed())?;
    }
    Ok(())
}

fn stays(one: &Lasting, removed: &[u64]) -> bool
    ensures { result
        ≡ (is_standing one.now && not (is_among one.now.filed.partition.number removed.now)) }
{
    one.stands() && !is_among(one.filed().number(), removed)
}

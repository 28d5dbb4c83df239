//! The partitions of its target that a change reads.
ghost use Rattle.std.specs.Prelude.{◌++◌, ◌∷◌, [], List, IfOk, OnOk};
ghost use Rattle.wh_bound_change.specs.View.{change_of};
ghost use Rattle.wh_frame.specs.Partition.{Partition};
ghost use Rattle.wh_filed.specs.Filed.{filed_at, partitions_at, AreAmong};
ghost use Rattle.wh_txn.specs.Touched.{LeavesOut};

use std::alloc::{AllocError, Global};
use wh_bound_change::Modification;
use wh_dml::leaves;
use wh_filed::FiledPartition;

/// Those of some partitions in which a change may not leave each row as it is.
pub(crate) fn touched<'a>(
    alloc: Global,
    filed: &[&'a FiledPartition],
    change: &Modification,
) -> Result<Vec<&'a FiledPartition>, AllocError>
    ensures touched { IfOk result (λ found. LeavesOut (change_of change.now)
        (partitions_at filed.now) (partitions_at found.items)) }
    ensures among { IfOk result (λ found.
        AreAmong (filed_at found.items) (filed_at filed.now)) }
{
    let mut found = Vec::new(alloc);
    for one in filed {
        add_touched(&mut found, one, change)?;
    }
    Ok(found)
}

fn add_touched<'a>(
    found: &mut Vec<&'a FiledPartition>,
    one: &'a FiledPartition,
    change: &Modification,
) -> Result<(), AllocError>
    ensures touched { OnOk result ((whole : List Partition)
        → LeavesOut (change_of change.now) whole (partitions_at found.old.items)
        → LeavesOut (change_of change.now) (whole ++ one.now.partition ∷ [])
        (partitions_at found.new.items)) }
    ensures among { OnOk result (AreAmong (filed_at found.new.items)
        (filed_at found.old.items ++ one.now ∷ [])) }
{
    if !leaves(change, one.meta()) {
        found.push(one)?;
    }
    Ok(())
}

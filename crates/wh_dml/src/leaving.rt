ghost use Rattle.std.specs.Bool.{OnTrue};
ghost use Rattle.wh_bound_change.specs.View.{change_of};
ghost use Rattle.wh_dml.specs.Leaving.{LeavesEach};
ghost use Rattle.wh_frame.specs.Partition.{Partition};
ghost use Rattle.wh_part.specs.Meta.{IsMetaOf};

use wh_bound_change::Modification;
use wh_part::PartMeta;

/// Whether a change leaves each row of a partition as it is, by what is known of the partition
/// without its rows: those of an UPDATE or a DELETE whose condition is TRUE on none of them.
pub fn leaves(change: &Modification, part: &PartMeta) -> bool
    ensures { OnTrue result ((p : Partition) → IsMetaOf part.now p
        → LeavesEach (change_of change.now) p) }
{
    match change {
        Modification::Update(condition, _) | Modification::Delete(condition) => {
            !part.may_hold(condition)
        }
        Modification::InsertRows(_)
        | Modification::InsertQuery(_, _)
        | Modification::Merge(_, _, _) => false,
    }
}

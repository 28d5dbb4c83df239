//! The partitions of a table in which rows may stand that a net change takes away, as far as what
//! is known of them without their rows tells.
ghost use Rattle.std.specs.Prelude.{◌≡◌, ◌∷◌, ◌++◌, [], map, List, Contains, IfOk, OnOk};
ghost use Rattle.std.specs.Bool.{OnFalse};
ghost use Rattle.std.specs.List.{AllByRecursion};
ghost use Rattle.wh_value.specs.View.{value_of};
ghost use Rattle.wh_frame.specs.Partition as machine;
ghost use Rattle.wh_part.specs.Holding.{IsWithin, sides_of, columns_of};
ghost use Rattle.wh_filed.specs.Filed.{Filed, filed_at, partitions_at as filed_partitions};
ghost use Rattle.wh_state.specs.State.{last_rows};
ghost use Rattle.wh_state.specs.Stored.{table_meant};
ghost use Rattle.wh_table.specs.Table.{table_of, filed_of};
ghost use Rattle.wh_refresh.specs.Going.{is_between, StaysWithin, AreGoing};
ghost use Rattle.wh_refresh.specs.Rebased.{HoldsGoing};

use std::alloc::{AllocError, Global};
use wh_bag::{Bag, Signed};
use wh_filed::FiledPartition;
use wh_part::{Bounds, PartMeta};
use wh_table::StoredTable;
use wh_value::{Value, cmp_values};

/// The partitions among whose rows all stand that go: each in which one of them may stand.
pub(crate) fn going<'a>(
    alloc: Global,
    table: &'a StoredTable,
    change: &Signed,
) -> Result<Vec<&'a FiledPartition>, AllocError>
    ensures going { IfOk result (λ found. HoldsGoing (filed_partitions found.items)
        (last_rows (table_meant (table_of table.now))) change.now.minus) }
    ensures among { IfOk result (λ found.
        AllByRecursion (Contains (filed_of table.now)) (filed_at found.items)) }
{
    let mut going = Vec::new(alloc);
    if change.minus.is_empty() {
        return Ok(going);
    }
    let standing = table.standing(alloc)?;
    for filed in &standing {
        add_going(&mut going, change, *filed)?;
    }
    Ok(going)
}

fn add_going<'a>(
    going: &mut Vec<&'a FiledPartition>,
    change: &Signed,
    filed: &'a FiledPartition,
) -> Result<(), AllocError>
    ensures added { OnOk result ((seen : List machine.Partition)
        → AreGoing change.now.minus seen (filed_partitions going.old.items)
        → AreGoing change.now.minus (seen ++ filed.now.partition ∷ [])
        (filed_partitions going.new.items)) }
    ensures among { OnOk result ((all : List Filed) → Contains all filed.now
        → AllByRecursion (Contains all) (filed_at going.old.items)
        → AllByRecursion (Contains all) (filed_at going.new.items)) }
{
    if may_lose(filed.meta(), &change.minus) {
        going.push(filed)?;
    }
    Ok(())
}

// Whether one of the rows may stand in the partition.
fn may_lose(meta: &PartMeta, rows: &Bag) -> bool
    ensures { OnFalse result (StaysWithin (columns_of meta.now) rows.now) }
{
    for (row, _) in rows.iter() {
        if are_within(&meta.columns, row.values()) {
            return true;
        }
    }
    false
}

// Whether each value lies between the sides of its column. NULL is the greatest value.
#[cycle(are_within)]
fn are_within(columns: &[Bounds], values: &[Value]) -> bool
    ensures { OnFalse result
        (IsWithin (map sides_of columns.now) (map value_of values.now) → ⊥) }
{
    match (columns, values) {
        ([bounds, columns @ ..], [value, values @ ..]) => {
            is_within(bounds, value) && are_within(columns, values)
        }
        _ => true,
    }
}

fn is_within(bounds: &Bounds, value: &Value) -> bool
    ensures { result ≡ is_between (sides_of bounds.now) (value_of value.now) }
{
    !cmp_values(&bounds.least, value).is_gt() && !cmp_values(value, &bounds.greatest).is_gt()
}

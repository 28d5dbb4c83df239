//! Partitions at hand, from where they are kept.
ghost use Rattle.std.specs.Prelude.{◌≡◌, ◌++◌, ◌∷◌, [], OnOk, IfOk};
ghost use Rattle.std.specs.List.{AllByRecursion};
ghost use Rattle.wh_state.specs.Orderly.{HasRisingRows};
ghost use Rattle.wh_filed.specs.Filed.{loaded_of};
ghost use Rattle.wh_table.specs.Rows.{partitions_at};

use std::alloc::{AllocError, Global};
use std::sync::Arc;
use wh_part::Partition;

/// Those that were loaded, and behind them those that were made.
pub(crate) fn gathered<'a>(
    alloc: Global,
    stored: &'a [Arc<Partition>],
    made: &'a [Partition],
) -> Result<Vec<&'a Partition>, AllocError>
    ensures partitions { IfOk result (λ found.
        partitions_at found.items ≡ loaded_of stored.now ++ made.now) }
    ensures rising { IfOk result (λ found.
        AllByRecursion HasRisingRows (partitions_at found.items)) }
{
    let mut found = at_hand(alloc, stored)?;
    add_all(&mut found, made)?;
    Ok(found)
}

/// Those that were loaded.
pub(crate) fn at_hand<'a>(
    alloc: Global,
    stored: &'a [Arc<Partition>],
) -> Result<Vec<&'a Partition>, AllocError>
    ensures partitions { IfOk result (λ found. partitions_at found.items ≡ loaded_of stored.now) }
    ensures rising { IfOk result (λ found.
        AllByRecursion HasRisingRows (partitions_at found.items)) }
{
    let mut found = Vec::new(alloc);
    for partition in stored {
        add(&mut found, partition)?;
    }
    Ok(found)
}

fn add_all<'a>(
    found: &mut Vec<&'a Partition>,
    partitions: &'a [Partition],
) -> Result<(), AllocError>
    ensures added { OnOk result (partitions_at found.new.items
        ≡ partitions_at found.old.items ++ partitions.now) }
    ensures rising { OnOk result (AllByRecursion HasRisingRows (partitions_at found.old.items)
        → AllByRecursion HasRisingRows (partitions_at found.new.items)) }
{
    for partition in partitions {
        add(found, partition)?;
    }
    Ok(())
}

// The numbers of its rows rise, by the type of partitions.
fn add<'a>(found: &mut Vec<&'a Partition>, partition: &'a Partition) -> Result<(), AllocError>
    ensures added { OnOk result (partitions_at found.new.items
        ≡ partitions_at found.old.items ++ partition.now ∷ []) }
    ensures rising { HasRisingRows partition.now }
{
    let _rows = partition.rows();
    found.push(partition)?;
    Ok(())
}

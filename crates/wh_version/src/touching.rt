ghost use Rattle.std.specs.Prelude.{◌≡◌, ◌++◌, ◌∷◌, [], false, List, map, filter, is_some};
ghost use Rattle.std.specs.Prelude.{Contains, OnOk, IfOk};
ghost use Rattle.std.specs.Bool.{OnFalse};
ghost use Rattle.std.specs.List.{list_any, AllByRecursion};
ghost use Rattle.std.specs.FinMap.{get};
ghost use Rattle.wh_filed.specs.Filed.{Filed, filed_at, partitions_at, contents_at};
ghost use Rattle.wh_state.specs.Edits.{is_touched, touched};
ghost use Rattle.wh_version.specs.Lasting.{is_standing, filed_in, partitions_in};

use crate::Lasting;
use crate::row_edits::RowEdits;
use std::alloc::{AllocError, Global};
use wh_filed::FiledPartition;
use wh_part::{NumberedRow, Partition};

/// Those of the partitions that stand that may have a row that the edits name, by the numbers of
/// their first and last rows. The others have none.
pub(crate) fn candidates<'a>(
    alloc: Global,
    edits: &RowEdits,
    kept: &'a [Lasting],
) -> Result<Vec<&'a FiledPartition>, AllocError>
    ensures touched { IfOk result (λ found. touched edits.now (partitions_at found.items)
        ≡ touched edits.now (partitions_in (filter is_standing kept.now))) }
    ensures among { IfOk result (λ found.
        AllByRecursion (Contains (filed_in kept.now)) (filed_at found.items)) }
{
    let mut found = Vec::new(alloc);
    for one in kept {
        add_candidate(&mut found, edits, one)?;
    }
    Ok(found)
}

fn add_candidate<'a>(
    found: &mut Vec<&'a FiledPartition>,
    edits: &RowEdits,
    one: &'a Lasting,
) -> Result<(), AllocError>
    ensures touched { OnOk result (touched edits.now (partitions_at found.new.items)
        ≡ touched edits.now (partitions_at found.old.items)
        ++ touched edits.now (partitions_in (filter is_standing (one.now ∷ [])))) }
    ensures among { OnOk result ((all : List Filed) → Contains all one.now.filed
        → AllByRecursion (Contains all) (filed_at found.old.items)
        → AllByRecursion (Contains all) (filed_at found.new.items)) }
{
    if one.stands() && may_be_touched(edits, one.filed()) {
        found.push(one.filed())?;
    }
    Ok(())
}

fn may_be_touched(edits: &RowEdits, filed: &FiledPartition) -> bool
    ensures { OnFalse result (is_touched edits.now filed.now.partition ≡ false) }
{
    edits.has_between(filed.first(), filed.last())
}

/// Those of the partitions that have a row that the edits name.
pub(crate) fn touched_among<'a>(
    alloc: Global,
    edits: &RowEdits,
    partitions: &[&'a Partition],
) -> Result<Vec<&'a Partition>, AllocError>
    ensures { IfOk result (λ found.
        contents_at found.items ≡ touched edits.now (contents_at partitions.now)) }
{
    let mut found = Vec::new(alloc);
    for partition in partitions {
        add_touched(&mut found, edits, *partition)?;
    }
    Ok(found)
}

fn add_touched<'a>(
    found: &mut Vec<&'a Partition>,
    edits: &RowEdits,
    partition: &'a Partition,
) -> Result<(), AllocError>
    ensures { OnOk result (contents_at found.new.items
        ≡ contents_at found.old.items ++ touched edits.now (partition.now ∷ [])) }
{
    if is_touched(edits, partition) {
        found.push(partition)?;
    }
    Ok(())
}

fn is_touched(edits: &RowEdits, partition: &Partition) -> bool
    ensures { result ≡ is_touched edits.now partition.now }
{
    let rows = partition.rows();
    // One look for most of the partitions, rather than one for each row.
    if !edits.has_between(partition.first(), partition.last()) {
        return false;
    }
    names_one(edits, rows)
}

fn names_one(edits: &RowEdits, rows: &[NumberedRow]) -> bool
    ensures { result ≡ list_any (λ e. is_some (get edits.now e.number)) rows.now }
{
    let mut guess = 0;
    for entry in rows {
        if edits.has(entry.number, &mut guess) {
            return true;
        }
    }
    false
}

/// Their numbers.
pub(crate) fn numbers(alloc: Global, partitions: &[&Partition]) -> Result<Vec<u64>, AllocError>
    ensures { IfOk result (λ numbers.
        numbers.items ≡ map (λ p. p.number) (contents_at partitions.now)) }
{
    let mut numbers = Vec::with_capacity(alloc, partitions.len())?;
    for partition in partitions {
        numbers.push(partition.number())?;
    }
    Ok(numbers)
}

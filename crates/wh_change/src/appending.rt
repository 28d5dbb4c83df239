//! The rows that first stand in the versions of a range.
ghost use Rattle.std.specs.Prelude.{◌≡◌, [], ◌++◌, map, List, OnOk, IfOk, if◌then◌else◌};
ghost use Rattle.wh_state.specs.Stored.{StoredVersion, version_meant};
ghost use Rattle.wh_part.specs.View.{numbered_of};
ghost use Rattle.wh_net.specs.Net as streams;
ghost use Rattle.wh_net.specs.Net.{is_between};
ghost use Rattle.wh_table.specs.Rows.{all_rows, partitions_at};
ghost use Rattle.wh_change.specs.RowChange.{row_changes_of};
ghost use Rattle.wh_change.specs.Appended.{IsAppended};
ghost use Rattle.wh_change.specs.Seen.{appeared};

use crate::rows::at_hand;
use crate::seen::Seen;
use crate::{Appended, RowChange};
use std::alloc::{AllocError, Global};
use wh_part::{NumberedRow, Partition};
use wh_table::by_rows;

/// The rows that first stand in versions behind a stamp and up to another, as they first stood,
/// version by version. What came is that behind the same stamp.
pub fn appends(
    alloc: Global,
    appended: &Appended,
    from: u64,
    to: u64,
) -> Result<Vec<RowChange<'_>>, AllocError>
    ensures { IfOk result (λ records. (versions : List StoredVersion)
        → IsAppended from appended.now versions
        → row_changes_of records.items ≡ streams.appended (map version_meant versions) from to) }
{
    let mut records = Vec::new(alloc);
    let mut seen = Seen::of(at_hand(&appended.seen, alloc)?);
    for arrived in &appended.later {
        let came = by_rows(alloc, &arrived.came, &[])?;
        add_appended(&mut records, &seen, &came, arrived.stamp, from, to)?;
        see(&mut seen, &came)?;
    }
    Ok(records)
}

// What came with a version, where its stamp is behind the range's first and up to its last.
fn add_appended<'a>(
    records: &mut Vec<RowChange<'a>>,
    seen: &Seen<'a>,
    came: &[&'a Partition],
    stamp: u64,
    from: u64,
    to: u64,
) -> Result<(), AllocError>
    ensures { OnOk result (row_changes_of records.new.items ≡ row_changes_of records.old.items
        ++ (if is_between from to stamp then appeared (partitions_at seen.now.partitions.items)
        (all_rows (partitions_at came.now)) else [])) }
{
    if stamp <= from || to < stamp {
        return Ok(());
    }
    add_unseen(records, seen, came)
}

// Partitions one after the other, as they came.
fn see<'a>(seen: &mut Seen<'a>, came: &[&'a Partition]) -> Result<(), AllocError>
    ensures { OnOk result (partitions_at seen.new.partitions.items
        ≡ partitions_at seen.old.partitions.items ++ partitions_at came.now) }
{
    for partition in came {
        seen.add(partition)?;
    }
    Ok(())
}

// The rows of partitions whose numbers weren't seen before.
fn add_unseen<'a>(
    records: &mut Vec<RowChange<'a>>,
    seen: &Seen<'a>,
    came: &[&'a Partition],
) -> Result<(), AllocError>
    ensures { OnOk result (row_changes_of records.new.items ≡ row_changes_of records.old.items
        ++ appeared (partitions_at seen.now.partitions.items) (all_rows (partitions_at came.now))) }
{
    for partition in came {
        add_rows(records, seen, partition.rows())?;
    }
    Ok(())
}

fn add_rows<'a>(
    records: &mut Vec<RowChange<'a>>,
    seen: &Seen<'a>,
    rows: &'a [NumberedRow],
) -> Result<(), AllocError>
    ensures { OnOk result (row_changes_of records.new.items ≡ row_changes_of records.old.items
        ++ appeared (partitions_at seen.now.partitions.items) (map numbered_of rows.now)) }
{
    // Rows of one partition mostly come from one that stood before.
    let mut near = 0;
    for row in rows {
        match seen.place_of(row.number, near) {
            Some(place) => near = place,
            None => records.push(RowChange::inserted(row.number, false, &row.row))?,
        }
    }
    Ok(())
}

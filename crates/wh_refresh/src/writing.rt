//! What is told of a refresh, and the changes that say it.
ghost use Rattle.std.specs.Prelude.{◌≡◌, ◌+◌, ◌++◌, ℕ, List, Option, map, option_map, length};
ghost use Rattle.std.specs.Prelude.{IfOk, OnOk};
ghost use Rattle.std.specs.List.{AllByRecursion, flat_map};
ghost use Rattle.wh_reply.specs.View.{refreshed_view};
ghost use Rattle.wh_state.specs.Stored as file;
ghost use Rattle.wh_state.specs.State.{at_id};
ghost use Rattle.wh_state.specs.Written.{written, version_written_to, groups_written};
ghost use Rattle.wh_state.specs.Edits.{Edits};
ghost use Rattle.wh_state.specs.Commit.{PushesVersion};
ghost use Rattle.wh_state.specs.Spelling.{IsUnderstood};
ghost use Rattle.wh_table.specs.Table.{table_of};
ghost use Rattle.wh_dynamic.specs.View.{groups_change_of};
ghost use Rattle.wh_machine.specs.Refresh as machine;
ghost use Rattle.wh_machine.specs.Brought.{AreAbove};
ghost use Rattle.wh_record.specs.View.{change_of};
ghost use Rattle.wh_refresh.specs.Objects.{objects_in, stored_in};
ghost use Rattle.wh_refresh.specs.Brought.{AreBrought, IsBrought, IsEditedAt, IsRowsOf};
ghost use Rattle.wh_refresh.specs.Brought.{groups_of_rows};
ghost use Rattle.wh_refresh.specs.Writing.{one_written, rows_written, StaysUnderstood};

use crate::brought::{Brought, NewRows};
use crate::objects::{name_at, table_at};
use std::alloc::{AllocError, Global};
use wh_catalog::{StoredObject, StoredTable};
use wh_dynamic::GroupsChange;
use wh_record::{Change, VersionChange};
use wh_reply::Refreshed;
use wh_table::EditedTable;

/// A line for each table.
pub(crate) fn lines(
    alloc: Global,
    objects: &[&StoredObject],
    moment: u64,
    all: &[Brought],
) -> Result<Vec<Refreshed>, AllocError>
    ensures lines { IfOk result (λ lines. (bs : List machine.Brought)
        → AreBrought (stored_in objects.now) all.now bs
        → map refreshed_view lines.items
        ≡ map (machine.told_of (objects_in objects.now) moment) bs) }
    ensures actions { IfOk result (λ lines.
        map (λ line. line.action) lines.items ≡ map (λ one. one.action) all.now) }
{
    let mut lines = Vec::new(alloc);
    for one in all {
        lines.push(line(alloc, objects, moment, one)?)?;
    }
    Ok(lines)
}

fn line(
    alloc: Global,
    objects: &[&StoredObject],
    moment: u64,
    one: &Brought,
) -> Result<Refreshed, AllocError>
    ensures line { IfOk result (λ line. (b : machine.Brought)
        → IsBrought (stored_in objects.now) one.now b
        → refreshed_view line ≡ machine.told_of (objects_in objects.now) moment b) }
    ensures action { IfOk result (λ line. line.action ≡ one.now.action) }
{
    let (plus, minus) = counts(one);
    Ok(Refreshed {
        name: name_at(alloc, objects, one.id)?,
        moment,
        action: one.action,
        plus,
        minus,
    })
}

// How many rows come and go.
fn counts(one: &Brought) -> (u64, u64)
    ensures { (stored : List file.StoredObject) (b : machine.Brought) → IsBrought stored one.now b
        → result ≡ machine.counted_in b.edits }
{
    match &one.rows {
        Some(rows) => (rows.plus, rows.minus),
        None => (0, 0),
    }
}

/// A version of each table that has new data, and the state of each.
pub(crate) fn changes(
    alloc: Global,
    objects: &[&StoredObject],
    moment: u64,
    all: Vec<Brought>,
) -> Result<Vec<Change>, AllocError>
    ensures written { IfOk result (λ changes. (stamp : ℕ) (bs : List machine.Brought)
        → AreBrought (stored_in objects.now) all.items bs → AreAbove 0 bs
        → map change_of changes.items ≡ written stamp (stored_in objects.now)
        (flat_map (machine.acts_of_one moment) bs)) }
    ensures understood { IfOk result (λ changes.
        AllByRecursion IsUnderstood (map change_of changes.items)) }
{
    let mut changes = Vec::new(alloc);
    for one in all {
        add_changes(&mut changes, objects, moment, one)?;
    }
    Ok(changes)
}

fn add_changes(
    changes: &mut Vec<Change>,
    objects: &[&StoredObject],
    moment: u64,
    one: Brought,
) -> Result<(), AllocError>
    ensures written { OnOk result ((b : machine.Brought) → IsBrought (stored_in objects.now) one b
        → map change_of changes.new.items ≡ map change_of changes.old.items
        ++ one_written (stored_in objects.now) moment b) }
    ensures understood { OnOk result (StaysUnderstood (map change_of changes.old.items)
        (map change_of changes.new.items)) }
{
    let Brought {
        id,
        rows,
        state,
        ..
    } = one;
    add_version(changes, objects, moment, id, rows)?;
    changes.push(Change::SetsDynamic { id, state })?;
    Ok(())
}

fn add_version(
    changes: &mut Vec<Change>,
    objects: &[&StoredObject],
    moment: u64,
    id: u32,
    rows: Option<NewRows>,
) -> Result<(), AllocError>
    ensures written { OnOk result ((edits : Option Edits)
        → IsRowsOf (stored_in objects.now) id rows edits
        → map change_of changes.new.items ≡ map change_of changes.old.items
        ++ rows_written (stored_in objects.now) moment id edits (groups_of_rows rows)) }
    ensures understood { OnOk result (StaysUnderstood (map change_of changes.old.items)
        (map change_of changes.new.items)) }
{
    let Some(
        NewRows {
            edited,
            plus,
            groups,
            ..
        },
    ) = rows
    else {
        return Ok(());
    };
    add_edits(changes, objects, moment, id, plus, edited)?;
    add_groups(changes, id, groups)?;
    Ok(())
}

fn add_edits(
    changes: &mut Vec<Change>,
    objects: &[&StoredObject],
    moment: u64,
    id: u32,
    plus: u64,
    edited: EditedTable,
) -> Result<(), AllocError>
    ensures written { OnOk result ((e : Edits) → IsEditedAt (stored_in objects.now) id edited e
        → plus ≡ length e.added → map change_of changes.new.items ≡ map change_of changes.old.items
        ++ version_written_to moment id e (at_id (stored_in objects.now) id)) }
    ensures understood { OnOk result (StaysUnderstood (map change_of changes.old.items)
        (map change_of changes.new.items)) }
{
    let Some(table) = table_at(objects, id) else {
        return Ok(());
    };
    let version = version(moment, id, plus, table, edited)?;
    changes.push(version)?;
    Ok(())
}

fn add_groups(
    changes: &mut Vec<Change>,
    id: u32,
    groups: Option<GroupsChange>,
) -> Result<(), AllocError>
    ensures written { OnOk result (map change_of changes.new.items
        ≡ map change_of changes.old.items
        ++ groups_written id (option_map groups_change_of groups)) }
    ensures understood { OnOk result (StaysUnderstood (map change_of changes.old.items)
        (map change_of changes.new.items)) }
{
    let Some(groups) = groups else {
        return Ok(());
    };
    changes.push(Change::SetsGroups { id, groups })?;
    Ok(())
}

fn version(
    moment: u64,
    id: u32,
    more: u64,
    table: &StoredTable,
    edited: EditedTable,
) -> Result<Change, AllocError>
    ensures { IfOk result (λ change. change_of change ≡ PushesVersion (record {
      id = id;
      data_timestamp = moment;
      next_row = (table_of table.now).next_row + more;
      width = length (table_of table.now).columns;
      removed = edited.removed.items;
      added = edited.added.items;
    })) }
{
    // No table has so many rows.
    let Some(next_row) = table.next_row().checked_add(more) else {
        return Err(AllocError);
    };
    let (removed, added) = edited.into_parts();
    Ok(Change::PushesVersion(VersionChange {
        id,
        data_timestamp: moment,
        next_row,
        width: table.columns().len() as u32,
        removed,
        added,
    }))
}

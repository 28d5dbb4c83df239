//! The bytes of what a version does to groups.
ghost use Rattle.std.specs.Prelude.{◌≡◌, ◌<◌, ◌^◌, ◌++◌, Some, true, length, replicate, OnOk};
ghost use Rattle.std.specs.List.{flat_map, AllByRecursion};
ghost use Rattle.std.specs.Option.{IfSome, option_copied};
ghost use Rattle.wh_value.specs.Value.{IsRow};
ghost use Rattle.wh_frame.specs.Spelling.{list_bytes, value_bytes};
ghost use Rattle.wh_maintenance.specs.Standing.{nothing_yet};
ghost use Rattle.wh_state.specs.Spelling.{total_bytes, standing_bytes, entry_bytes, groups_bytes};
ghost use Rattle.wh_state.specs.Spelling.{IsTotal, IsStanding, IsGroupEntry, IsGroupsChange};
ghost use Rattle.wh_record.specs.Decoding as reading;
ghost use Rattle.wh_dynamic.specs.View.{groups_change_of};

use crate::encoding::write_count;
use crate::format::is_wide;
use crate::groups_decoding::keys_rise;
use std::alloc::AllocError;
use wh_dynamic::GroupsChange;
use wh_group::{Entry, Standing, Total};
use wh_part::{write_u32, write_u64, write_values};
use wh_value::{Bytes, Row};

fn write_total(out: &mut Bytes, total: &Total) -> Result<(), AllocError>
    ensures written { OnOk result (out.new ≡ out.old ++ total_bytes total.now) }
    ensures spelled { OnOk result (IsTotal total.now) }
{
    write_u64(out, total.sum.cast_unsigned())?;
    write_u64(out, total.values)?;
    Ok(())
}

fn write_totals(out: &mut Bytes, totals: &[Total]) -> Result<(), AllocError>
    ensures written { OnOk result (out.new ≡ out.old ++ flat_map total_bytes totals.now) }
    ensures spelled { OnOk result (AllByRecursion IsTotal totals.now) }
{
    for total in totals {
        write_total(out, total)?;
    }
    Ok(())
}

/// A group with no rows, or with another number of totals than the calls, is taken for memory
/// that ran out.
#[tactic(auto, unfolding(wh_state::specs::Spelling::standing_bytes))]
fn write_standing(out: &mut Bytes, calls: u32, group: &Standing) -> Result<(), AllocError>
    ensures written { OnOk result (out.new ≡ out.old ++ standing_bytes calls (Some group.now)) }
    ensures spelled { OnOk result (IsStanding calls group.now) }
{
    if group.rows == 0 || group.totals.len() != calls as usize {
        return Err(AllocError);
    }
    write_u64(out, group.rows)?;
    write_totals(out, group.totals.as_slice())
}

/// Adds a total for each call, with nothing added up.
fn write_nothing(out: &mut Bytes, calls: u32) -> Result<(), AllocError>
    ensures { OnOk result
        (out.new ≡ out.old ++ flat_map total_bytes (replicate calls nothing_yet)) }
{
    for _ in 0..calls {
        write_total(out, &Total { sum: 0, values: 0 })?;
    }
    Ok(())
}

/// One that is removed has no rows, and nothing added up.
#[tactic(auto, unfolding(wh_state::specs::Spelling::standing_bytes))]
fn write_group(out: &mut Bytes, calls: u32, group: Option<&Standing>) -> Result<(), AllocError>
    ensures written { OnOk result
        (out.new ≡ out.old ++ standing_bytes calls (option_copied group.entry)) }
    ensures spelled { OnOk result (IfSome (option_copied group.entry) (IsStanding calls)) }
{
    match group {
        None => {
            write_u64(out, 0)?;
            write_nothing(out, calls)
        }
        Some(group) => write_standing(out, calls, group),
    }
}

/// A key that isn't within the format is taken for memory that ran out.
fn write_key(out: &mut Bytes, keys: u32, key: &Row) -> Result<(), AllocError>
    ensures written { OnOk result (out.new ≡ out.old ++ flat_map value_bytes key.now) }
    ensures spelled { OnOk result ((length key.now ≡ keys) × IsRow key.now) }
{
    if !is_wide(keys, key) {
        return Err(AllocError);
    }
    write_values(out, key.values())
}

#[tactic(auto, unfolding(wh_state::specs::Spelling::entry_bytes))]
fn write_entry(out: &mut Bytes, keys: u32, calls: u32, entry: &Entry) -> Result<(), AllocError>
    ensures written { OnOk result (out.new ≡ out.old ++ entry_bytes calls entry.now) }
    ensures spelled { OnOk result (IsGroupEntry keys calls entry.now) }
{
    write_key(out, keys, &entry.key)?;
    write_group(out, calls, entry.group.as_ref())
}

fn write_each_entry(
    out: &mut Bytes,
    keys: u32,
    calls: u32,
    entries: &[Entry],
) -> Result<(), AllocError>
    ensures written { OnOk result (out.new ≡ out.old ++ flat_map (entry_bytes calls) entries.now) }
    ensures spelled { OnOk result (AllByRecursion (IsGroupEntry keys calls) entries.now) }
{
    for entry in entries {
        write_entry(out, keys, calls, entry)?;
    }
    Ok(())
}

/// Keys that don't rise are taken for memory that ran out.
fn write_entries(
    out: &mut Bytes,
    keys: u32,
    calls: u32,
    entries: &[Entry],
) -> Result<(), AllocError>
    ensures written { OnOk result
        (out.new ≡ out.old ++ list_bytes (entry_bytes calls) entries.now) }
    ensures fits { OnOk result (length entries.now < 2 ^ 32) }
    ensures rising { OnOk result (reading.keys_rise entries.now ≡ true) }
    ensures spelled { OnOk result (AllByRecursion (IsGroupEntry keys calls) entries.now) }
{
    if !keys_rise(entries) {
        return Err(AllocError);
    }
    write_count(out, entries.len())?;
    write_each_entry(out, keys, calls, entries)
}

#[tactic(auto, unfolding(wh_state::specs::Spelling::groups_bytes))]
pub(crate) fn write_groups(
    out: &mut Bytes,
    id: u32,
    groups: &GroupsChange,
) -> Result<(), AllocError>
    ensures written { OnOk result
        (out.new ≡ out.old ++ groups_bytes id (groups_change_of groups.now)) }
    ensures spelled { OnOk result (IsGroupsChange id (groups_change_of groups.now)) }
{
    write_u32(out, id)?;
    write_u32(out, groups.keys)?;
    write_u32(out, groups.calls)?;
    write_entries(out, groups.keys, groups.calls, &groups.entries)?;
    Ok(())
}

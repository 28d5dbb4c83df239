//! How many bytes there are of what a version does to groups, by counting alone.
ghost use Rattle.std.specs.Prelude.{◌≡◌, ◌+◌, ◌*◌, length, map, IfOk};
ghost use Rattle.std.specs.List.{flat_map};
ghost use Rattle.std.specs.Option.{option_copied};
ghost use Rattle.wh_value.specs.View.{value_of};
ghost use Rattle.wh_frame.specs.Spelling.{value_bytes};
ghost use Rattle.wh_state.specs.Spelling.{standing_bytes, entry_bytes};

use std::alloc::AllocError;
use wh_dynamic::GroupsChange;
use wh_group::{Entry, Standing};
use wh_value::Value;

#[tactic(auto, unfolding(wh_frame::specs::Spelling::value_bytes))]
fn value_size(value: &Value) -> u64
    ensures { result ≡ length (value_bytes (value_of value.now)) }
{
    match value {
        Value::Null | Value::Bool(false) | Value::Bool(true) => 1,
        Value::Number(_) => 9,
        Value::Text(text) => 5 + text.as_bytes().len() as u64,
    }
}

/// The bytes of some values, and those before them.
fn values_size(before: u64, values: &[Value]) -> Result<u64, AllocError>
    ensures { IfOk result (λ size. size
        ≡ before + length (flat_map value_bytes (map value_of values.now))) }
{
    let mut size = before;
    for value in values {
        size = size.checked_add(value_size(value)).ok_or(AllocError)?;
    }
    Ok(size)
}

/// How many totals are written of a group: one that is removed has one for each call.
#[tactic(auto, using(crate::proofs::SizeLaws::standing_size, crate::proofs::SizeLaws::nothing_size))]
fn totals_written(calls: u32, group: Option<&Standing>) -> u64
    ensures { length (standing_bytes calls (option_copied group.entry)) ≡ 8 + 16 * result }
{
    match group {
        Some(group) => group.totals.len() as u64,
        None => u64::from(calls),
    }
}

/// The bytes of a group, and those before them.
fn group_size(before: u64, calls: u32, group: Option<&Standing>) -> Result<u64, AllocError>
    ensures { IfOk result (λ size. size
        ≡ before + length (standing_bytes calls (option_copied group.entry))) }
{
    let totals = totals_written(calls, group);
    let size = totals.checked_mul(16).ok_or(AllocError)?;
    // the group's rows
    let size = size.checked_add(8).ok_or(AllocError)?;
    before.checked_add(size).ok_or(AllocError)
}

/// The bytes of an entry, and those before them.
#[tactic(auto, using(crate::proofs::SizeLaws::entry_size))]
fn entry_size(before: u64, calls: u32, entry: &Entry) -> Result<u64, AllocError>
    ensures { IfOk result (λ size. size ≡ before + length (entry_bytes calls entry.now)) }
{
    let size = values_size(before, entry.key.values())?;
    group_size(size, calls, entry.group.as_ref())
}

/// The bytes of some entries, and those before them.
fn entries_size(before: u64, calls: u32, entries: &[Entry]) -> Result<u64, AllocError>
    ensures { IfOk result (λ size. size
        ≡ before + length (flat_map (entry_bytes calls) entries.now)) }
{
    let mut size = before;
    for entry in entries {
        size = entry_size(size, calls, entry)?;
    }
    Ok(size)
}

/// The bytes of what is set of groups, with the tag and the id before it.
pub(crate) fn groups_size(groups: &GroupsChange) -> Result<u64, AllocError>
    ensures { IfOk result (λ size. size
        ≡ 17 + length (flat_map (entry_bytes groups.now.calls) groups.now.entries.items)) }
{
    // a tag and four numbers of four bytes
    entries_size(17, groups.calls, &groups.entries)
}

//! What a version does to groups, from its bytes.
ghost use Rattle.std.specs.Prelude.{◌≡◌};
ghost use Rattle.wh_part.specs.Reading.{Gives, items_at};
ghost use Rattle.wh_record.specs.Decoding as spec;
ghost use Rattle.wh_dynamic.specs.View.{groups_change_of};

use std::alloc::Global;
use wh_dynamic::GroupsChange;
use wh_group::{Entry, Standing, Total, Totals};
use wh_part::{ReadError, read_u32, read_u64, read_value};
use wh_value::{Row, cmp_rows};

/// A total, whose sixteen bytes are there or none is read.
#[tactic(auto, unfolding(crate::specs::Decoding::total_at))]
fn read_total(bytes: &[u8]) -> Result<(Total, &[u8]), ReadError>
    ensures { Gives (λ x. (x.0, x.1.now)) result (spec.total_at bytes.now) }
{
    if bytes.len() < 16 {
        return Err(ReadError::Malformed);
    }
    let (bits, behind) = bytes.split_at(8);
    let (values, rest) = behind.split_at(8);
    let sum = u64::from_be_bytes([
        bits[0], bits[1], bits[2], bits[3], bits[4], bits[5], bits[6], bits[7],
    ])
    .cast_signed();
    let values = u64::from_be_bytes([
        values[0], values[1], values[2], values[3], values[4], values[5], values[6], values[7],
    ]);
    Ok((Total { sum, values }, rest))
}

fn read_totals(alloc: Global, calls: u32, bytes: &[u8]) -> Result<(Totals, &[u8]), ReadError>
    ensures { Gives (λ x. (x.0.items, x.1.now)) result (items_at spec.total_at calls bytes.now) }
{
    // each total has sixteen bytes
    let mut totals = Totals::new(alloc);
    totals.reserve((calls as usize).min(bytes.len() / 16))?;
    let mut rest = bytes;
    for _ in 0..calls {
        let (total, after) = read_total(rest)?;
        totals.push(total)?;
        rest = after;
    }
    Ok((totals, rest))
}

fn is_nothing(total: &Total) -> bool
    ensures { result ≡ spec.is_nothing total.now }
{
    total.sum == 0 && total.values == 0
}

fn are_nothing(totals: &[Total]) -> bool
    ensures { result ≡ spec.are_nothing totals.now }
{
    for total in totals {
        if !is_nothing(total) {
            return false;
        }
    }
    true
}

/// A group, or none where it has no rows; then nothing is added up.
#[tactic(auto, unfolding(crate::specs::Decoding::standing_at))]
fn read_group(
    alloc: Global,
    calls: u32,
    bytes: &[u8],
) -> Result<(Option<Standing>, &[u8]), ReadError>
    ensures { Gives (λ x. (x.0, x.1.now)) result (spec.standing_at calls bytes.now) }
{
    let (rows, rest) = read_u64(bytes)?;
    let (totals, rest) = read_totals(alloc, calls, rest)?;
    if rows > 0 {
        return Ok((Some(Standing { rows, totals }), rest));
    }
    if !are_nothing(totals.as_slice()) {
        return Err(ReadError::Malformed);
    }
    Ok((None, rest))
}

fn read_key(alloc: Global, keys: u32, bytes: &[u8]) -> Result<(Row, &[u8]), ReadError>
    ensures { Gives (λ x. (x.0, x.1.now)) result (spec.key_at keys bytes.now) }
{
    // each value has a byte at least
    let mut key = Row::with_capacity(alloc, (keys as usize).min(bytes.len()))?;
    let mut rest = bytes;
    for _ in 0..keys {
        let (value, after) = read_value(alloc, rest)?;
        key.push(value)?;
        rest = after;
    }
    Ok((key, rest))
}

#[tactic(auto, unfolding(crate::specs::Decoding::entry_at))]
fn read_entry(
    alloc: Global,
    keys: u32,
    calls: u32,
    bytes: &[u8],
) -> Result<(Entry, &[u8]), ReadError>
    ensures { Gives (λ x. (x.0, x.1.now)) result (spec.entry_at keys calls bytes.now) }
{
    let (key, rest) = read_key(alloc, keys, bytes)?;
    let (group, rest) = read_group(alloc, calls, rest)?;
    Ok((Entry { key, group }, rest))
}

fn read_each_entry(
    alloc: Global,
    keys: u32,
    calls: u32,
    count: u32,
    bytes: &[u8],
) -> Result<(Vec<Entry>, &[u8]), ReadError>
    ensures { Gives (λ x. (x.0.items, x.1.now)) result
        (items_at (spec.entry_at keys calls) count bytes.now) }
{
    // each entry has eight bytes at least
    let mut entries = Vec::with_capacity(alloc, (count as usize).min(bytes.len() / 8))?;
    let mut rest = bytes;
    for _ in 0..count {
        let (entry, after) = read_entry(alloc, keys, calls, rest)?;
        entries.push(entry)?;
        rest = after;
    }
    Ok((entries, rest))
}

/// Entries, whose keys have to rise.
#[tactic(auto, unfolding(crate::specs::Decoding::entries_at))]
fn read_entries(
    alloc: Global,
    keys: u32,
    calls: u32,
    bytes: &[u8],
) -> Result<(Vec<Entry>, &[u8]), ReadError>
    ensures { Gives (λ x. (x.0.items, x.1.now)) result (spec.entries_at keys calls bytes.now) }
{
    let (count, rest) = read_u32(bytes)?;
    let (entries, rest) = read_each_entry(alloc, keys, calls, count, rest)?;
    if !keys_rise(&entries) {
        return Err(ReadError::Malformed);
    }
    Ok((entries, rest))
}

/// The id of a dynamic table, and what is set of its groups.
#[tactic(auto, unfolding(crate::specs::Decoding::groups_at))]
pub(crate) fn read_groups(
    alloc: Global,
    bytes: &[u8],
) -> Result<((u32, GroupsChange), &[u8]), ReadError>
    ensures { Gives (λ x. ((x.0.0, groups_change_of x.0.1), x.1.now)) result
        (spec.groups_at bytes.now) }
{
    let (id, rest) = read_u32(bytes)?;
    let (keys, rest) = read_u32(rest)?;
    let (calls, rest) = read_u32(rest)?;
    let (entries, rest) = read_entries(alloc, keys, calls, rest)?;
    let groups = GroupsChange {
        keys,
        calls,
        entries,
    };
    Ok(((id, groups), rest))
}

/// Whether a key is below the next one, if there is one.
fn goes_before(key: &Row, others: &[Entry]) -> bool
    ensures { result ≡ spec.goes_before key.now others.now }
{
    match others {
        [] => true,
        [next, _behind @ ..] => cmp_rows(key, &next.key).is_lt(),
    }
}

/// Whether each key is greater than the one before.
pub(crate) fn keys_rise(entries: &[Entry]) -> bool
    ensures { result ≡ spec.keys_rise entries.now }
{
    let mut rest = entries;
    while let [entry, others @ ..] = rest {
        if !goes_before(&entry.key, others) {
            return false;
        }
        rest = others;
    }
    true
}

ghost use Rattle.std.specs.Prelude.{◌≡◌, map};
ghost use Rattle.std.specs.Int.{w32, w64};
ghost use Rattle.wh_value.specs.View.{type_of, column_of};
ghost use Rattle.wh_part.specs.Reading.{Gives, items_at, list_at, number_at};
ghost use Rattle.wh_part.specs.Decoding.{partition_at};
ghost use Rattle.wh_record.specs.Decoding.{type_at, column_at, table_at, removed_at, version_at};
ghost use Rattle.wh_record.specs.Decoding.{stream_kind_at, stream_at, offset_at, change_behind};
ghost use Rattle.wh_record.specs.Decoding.{change_at, commit_at, commit_of_all};
ghost use Rattle.wh_record.specs.Laws.{PayloadFixesTextCommit, FileFixesPayloads};
ghost use Rattle.wh_record.specs.View.{table_change_of, version_change_of, stream_change_of};
ghost use Rattle.wh_record.specs.View.{text_change_of, text_commit_of};

use crate::commit::{
    DROP_TAG, DYNAMIC_STATE_TAG, DYNAMIC_TAG, END_TAG, GROUPS_TAG, OFFSET_TAG, RUN_TAG, STATE_TAG,
    STREAM_TAG, TABLE_TAG, TASK_TAG, VERSION_TAG,
};
use crate::dynamic_decoding::{read_dynamic, read_dynamic_state};
use crate::format::rise;
use crate::groups_decoding::read_groups;
use crate::task_decoding::{read_end, read_run, read_state, read_task};
use crate::{OutlinedVersion, StreamChange, TableChange, TextChange, TextCommit};
use std::alloc::{AllocError, Global};
use wh_part::{Outline, ReadError, read_byte, read_text, read_u32, read_u64};
use wh_value::{Column, ColumnType};

#[tactic(auto, unfolding(crate::specs::Decoding::type_at))]
fn read_type(bytes: &[u8]) -> Result<(ColumnType, &[u8]), ReadError>
    ensures { Gives (λ x. (type_of x.0, x.1.now)) result (type_at bytes.now) }
{
    match bytes {
        [1, rest @ ..] => Ok((ColumnType::Number, rest)),
        [2, rest @ ..] => Ok((ColumnType::Varchar, rest)),
        [3, rest @ ..] => Ok((ColumnType::Boolean, rest)),
        _ => Err(ReadError::Malformed),
    }
}

#[tactic(auto, unfolding(crate::specs::Decoding::column_at))]
fn read_column(alloc: Global, bytes: &[u8]) -> Result<(Column, &[u8]), ReadError>
    ensures { Gives (λ x. (column_of x.0, x.1.now)) result (column_at bytes.now) }
{
    let (name, rest) = read_text(alloc, bytes)?;
    let (column_type, rest) = read_type(rest)?;
    Ok((Column { name, column_type }, rest))
}

fn read_each_column(
    alloc: Global,
    count: u32,
    bytes: &[u8],
) -> Result<(Vec<Column>, &[u8]), ReadError>
    ensures { Gives (λ x. (map column_of x.0.items, x.1.now)) result
        (items_at column_at count bytes.now) }
{
    let mut columns = Vec::new(alloc);
    let mut rest = bytes;
    for _ in 0..count {
        let (column, after) = read_column(alloc, rest)?;
        columns.push(column)?;
        rest = after;
    }
    Ok((columns, rest))
}

pub(crate) fn read_columns(alloc: Global, bytes: &[u8]) -> Result<(Vec<Column>, &[u8]), ReadError>
    ensures { Gives (λ x. (map column_of x.0.items, x.1.now)) result
        (list_at (number_at w32) column_at bytes.now) }
{
    let (count, rest) = read_u32(bytes)?;
    let (columns, rest) = read_each_column(alloc, count, rest)?;
    Ok((columns, rest))
}

#[tactic(auto, unfolding(crate::specs::Decoding::table_at))]
fn read_table(alloc: Global, bytes: &[u8]) -> Result<(TableChange, &[u8]), ReadError>
    ensures { Gives (λ x. (table_change_of x.0, x.1.now)) result (table_at bytes.now) }
{
    let (id, rest) = read_u32(bytes)?;
    let (name, rest) = read_text(alloc, rest)?;
    let (retention, rest) = read_byte(rest)?;
    let (columns, rest) = read_columns(alloc, rest)?;
    Ok((
        TableChange {
            id,
            name,
            retention,
            columns,
        },
        rest,
    ))
}

fn read_each_number(alloc: Global, count: u32, bytes: &[u8]) -> Result<(Vec<u64>, &[u8]), ReadError>
    ensures { Gives (λ x. (x.0.items, x.1.now)) result (items_at (number_at w64) count bytes.now) }
{
    let mut numbers = Vec::new(alloc);
    let mut rest = bytes;
    for _ in 0..count {
        let (number, after) = read_u64(rest)?;
        numbers.push(number)?;
        rest = after;
    }
    Ok((numbers, rest))
}

/// The numbers of the partitions that are removed, which have to rise.
#[tactic(auto, unfolding(crate::specs::Decoding::removed_at))]
fn read_removed(alloc: Global, bytes: &[u8]) -> Result<(Vec<u64>, &[u8]), ReadError>
    ensures { Gives (λ x. (x.0.items, x.1.now)) result (removed_at bytes.now) }
{
    let (count, rest) = read_u32(bytes)?;
    let (numbers, rest) = read_each_number(alloc, count, rest)?;
    if !rise(&numbers) {
        return Err(ReadError::Malformed);
    }
    Ok((numbers, rest))
}

fn read_each_outline(
    alloc: Global,
    width: u32,
    count: u32,
    bytes: &[u8],
) -> Result<(Vec<Outline>, &[u8]), ReadError>
    ensures { Gives (λ x. (x.0.items, x.1.now)) result
        (items_at (partition_at width) count bytes.now) }
{
    let mut outlines = Vec::new(alloc);
    let mut rest = bytes;
    for _ in 0..count {
        let (outline, after) = Outline::read(alloc, rest, width)?;
        outlines.push(outline)?;
        rest = after;
    }
    Ok((outlines, rest))
}

fn read_added(alloc: Global, width: u32, bytes: &[u8]) -> Result<(Vec<Outline>, &[u8]), ReadError>
    ensures { Gives (λ x. (x.0.items, x.1.now)) result
        (list_at (number_at w32) (partition_at width) bytes.now) }
{
    let (count, rest) = read_u32(bytes)?;
    let (added, rest) = read_each_outline(alloc, width, count, rest)?;
    Ok((added, rest))
}

#[tactic(auto, unfolding(crate::specs::Decoding::version_at))]
fn read_version(alloc: Global, bytes: &[u8]) -> Result<(OutlinedVersion, &[u8]), ReadError>
    ensures { Gives (λ x. (version_change_of x.0, x.1.now)) result (version_at bytes.now) }
{
    let (id, rest) = read_u32(bytes)?;
    let (data_timestamp, rest) = read_u64(rest)?;
    let (next_row, rest) = read_u64(rest)?;
    let (width, rest) = read_u32(rest)?;
    let (removed, rest) = read_removed(alloc, rest)?;
    let (added, rest) = read_added(alloc, width, rest)?;
    let version = OutlinedVersion {
        id,
        data_timestamp,
        next_row,
        width,
        removed,
        added,
    };
    Ok((version, rest))
}

/// Whether a stream is append-only.
#[tactic(auto, unfolding(crate::specs::Decoding::stream_kind_at))]
fn read_stream_kind(bytes: &[u8]) -> Result<(bool, &[u8]), ReadError>
    ensures { Gives (λ x. (x.0, x.1.now)) result (stream_kind_at bytes.now) }
{
    match bytes {
        [1, rest @ ..] => Ok((false, rest)),
        [2, rest @ ..] => Ok((true, rest)),
        _ => Err(ReadError::Malformed),
    }
}

#[tactic(auto, unfolding(crate::specs::Decoding::stream_at))]
fn read_stream(alloc: Global, bytes: &[u8]) -> Result<(StreamChange, &[u8]), ReadError>
    ensures { Gives (λ x. (stream_change_of x.0, x.1.now)) result (stream_at bytes.now) }
{
    let (id, rest) = read_u32(bytes)?;
    let (name, rest) = read_text(alloc, rest)?;
    let (source, rest) = read_u32(rest)?;
    let (is_append_only, rest) = read_stream_kind(rest)?;
    let (offset, rest) = read_u64(rest)?;
    let stream = StreamChange {
        id,
        name,
        source,
        is_append_only,
        offset,
    };
    Ok((stream, rest))
}

/// The id of a stream, and its offset.
#[tactic(auto, unfolding(crate::specs::Decoding::offset_at))]
fn read_offset(bytes: &[u8]) -> Result<((u32, u64), &[u8]), ReadError>
    ensures { Gives (λ x. ((x.0.0, x.0.1), x.1.now)) result (offset_at bytes.now) }
{
    let (id, rest) = read_u32(bytes)?;
    let (offset, rest) = read_u64(rest)?;
    Ok(((id, offset), rest))
}

fn read_change_behind(
    alloc: Global,
    tag: u8,
    bytes: &[u8],
) -> Result<(TextChange, &[u8]), ReadError>
    ensures { Gives (λ x. (text_change_of x.0, x.1.now)) result (change_behind tag bytes.now) }
{
    if tag == TABLE_TAG {
        let (table, rest) = read_table(alloc, bytes)?;
        return Ok((TextChange::CreatesTable(table), rest));
    }
    if tag == DROP_TAG {
        let (id, rest) = read_u32(bytes)?;
        return Ok((TextChange::Drops(id), rest));
    }
    if tag == STREAM_TAG {
        let (stream, rest) = read_stream(alloc, bytes)?;
        return Ok((TextChange::CreatesStream(stream), rest));
    }
    if tag == TASK_TAG {
        let (task, rest) = read_task(alloc, bytes)?;
        return Ok((TextChange::CreatesTask(task), rest));
    }
    if tag == STATE_TAG {
        let ((id, state), rest) = read_state(bytes)?;
        return Ok((TextChange::SetsTask { id, state }, rest));
    }
    if tag == RUN_TAG {
        let ((root, tasks), rest) = read_run(alloc, bytes)?;
        return Ok((TextChange::StartsRun { root, tasks }, rest));
    }
    if tag == END_TAG {
        let ((root, task, ending), rest) = read_end(bytes)?;
        return Ok((TextChange::FinishesTask { root, task, ending }, rest));
    }
    if tag == DYNAMIC_TAG {
        let (table, rest) = read_dynamic(alloc, bytes)?;
        return Ok((TextChange::CreatesDynamic(table), rest));
    }
    if tag == DYNAMIC_STATE_TAG {
        let ((id, state), rest) = read_dynamic_state(bytes)?;
        return Ok((TextChange::SetsDynamic { id, state }, rest));
    }
    if tag == VERSION_TAG {
        let (version, rest) = read_version(alloc, bytes)?;
        return Ok((TextChange::PushesVersion(version), rest));
    }
    if tag == OFFSET_TAG {
        let ((id, offset), rest) = read_offset(bytes)?;
        return Ok((TextChange::SetsOffset { id, offset }, rest));
    }
    if tag == GROUPS_TAG {
        let ((id, groups), rest) = read_groups(alloc, bytes)?;
        return Ok((TextChange::SetsGroups { id, groups }, rest));
    }
    Err(ReadError::Malformed)
}

#[tactic(auto, unfolding(crate::specs::Decoding::change_at))]
fn read_change(alloc: Global, bytes: &[u8]) -> Result<(TextChange, &[u8]), ReadError>
    ensures { Gives (λ x. (text_change_of x.0, x.1.now)) result (change_at bytes.now) }
{
    let (tag, rest) = read_byte(bytes)?;
    let (change, rest) = read_change_behind(alloc, tag, rest)?;
    Ok((change, rest))
}

fn read_each_change(
    alloc: Global,
    count: u32,
    bytes: &[u8],
) -> Result<(Vec<TextChange>, &[u8]), ReadError>
    ensures { Gives (λ x. (map text_change_of x.0.items, x.1.now)) result
        (items_at change_at count bytes.now) }
{
    let mut changes = Vec::new(alloc);
    let mut rest = bytes;
    for _ in 0..count {
        let (change, after) = read_change(alloc, rest)?;
        changes.push(change)?;
        rest = after;
    }
    Ok((changes, rest))
}

fn read_changes(alloc: Global, bytes: &[u8]) -> Result<(Vec<TextChange>, &[u8]), ReadError>
    ensures { Gives (λ x. (map text_change_of x.0.items, x.1.now)) result
        (list_at (number_at w32) change_at bytes.now) }
{
    let (count, rest) = read_u32(bytes)?;
    let (changes, rest) = read_each_change(alloc, count, rest)?;
    Ok((changes, rest))
}

#[tactic(auto, unfolding(crate::specs::Decoding::commit_at))]
fn read_commit(alloc: Global, bytes: &[u8]) -> Result<(TextCommit, &[u8]), ReadError>
    ensures { Gives (λ x. (text_commit_of x.0, x.1.now)) result (commit_at bytes.now) }
{
    let (stamp, rest) = read_u64(bytes)?;
    let (changes, rest) = read_changes(alloc, rest)?;
    Ok((TextCommit { stamp, changes }, rest))
}

#[tactic(auto, unfolding(crate::specs::Decoding::commit_of_all))]
fn read_all(alloc: Global, bytes: &[u8]) -> Result<TextCommit, ReadError>
    ensures { Gives (λ commit. text_commit_of commit) result (commit_of_all bytes.now) }
{
    let (commit, rest) = read_commit(alloc, bytes)?;
    if !rest.is_empty() {
        return Err(ReadError::Malformed);
    }
    Ok(commit)
}

impl TextCommit {
    ghost use Rattle.std.specs.Prelude.{◌≡◌, IfSome, IfNone, IfOk};
    ghost use Rattle.wh_state.specs.Commit as machine;
    ghost use Rattle.wh_state.specs.Spelling.{text_payload, IsTextCommit};
    ghost use Rattle.wh_record.specs.View.{text_commit_of};

    /// What a record's payload says of a commit. None exactly where the bytes are no commit.
    pub fn decode(alloc: Global, payload: &[u8]) -> Option<Result<TextCommit, AllocError>>
        ensures found { IfSome result (λ found. IfOk found (λ commit.
            IsTextCommit (text_commit_of commit)
            × (payload.now ≡ text_payload (text_commit_of commit)))) }
        ensures again { (c : machine.TextCommit) → IsTextCommit c → payload.now ≡ text_payload c →
            IfSome result (λ found. IfOk found (λ commit. text_commit_of commit ≡ c)) }
        ensures none { IfNone result ((c : machine.TextCommit) → IsTextCommit c →
            payload.now ≡ text_payload c → ⊥) }
    {
        match read_all(alloc, payload) {
            Ok(commit) => Some(Ok(commit)),
            Err(ReadError::Malformed) => None,
            Err(ReadError::Memory) => Some(Err(AllocError)),
        }
    }
}

/// No two commits with other texts have one payload, and no bytes are a file of two lists of
/// records.
pub fn spelling_fixes_commits()
    ensures payload { PayloadFixesTextCommit }
    ensures records { FileFixesPayloads }
{}

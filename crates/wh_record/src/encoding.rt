ghost use Rattle.std.specs.Prelude.{◌≡◌, ◌<◌, ◌^◌, ◌++◌, map, length, OnOk};
ghost use Rattle.std.specs.List.{flat_map, AllByRecursion};
ghost use Rattle.std.specs.Int.{w32, w64, to_be_bytes};
ghost use Rattle.wh_frame.specs.Spelling.{list_bytes, partition_bytes, IsPartition};
ghost use Rattle.wh_state.specs.Spelling.{type_byte, column_bytes, table_bytes, version_bytes};
ghost use Rattle.wh_state.specs.Spelling.{stream_kind_byte, stream_bytes, offset_bytes};
ghost use Rattle.wh_state.specs.Spelling.{change_bytes, payload_of, NumbersRiseFrom, IsColumn};
ghost use Rattle.wh_state.specs.Spelling.{IsTableChange, IsVersionChange, IsStreamChange, IsChange};
ghost use Rattle.wh_state.specs.Spelling.{IsTextCommit};
ghost use Rattle.wh_state.specs.Commit as machine;
ghost use Rattle.wh_state.specs.Commit.{as_text};
ghost use Rattle.wh_value.specs.View.{type_of, column_of};
ghost use Rattle.wh_record.specs.View.{table_change_of, version_change_of, stream_change_of};
ghost use Rattle.wh_record.specs.View.{written_of, written_with, commit_of};
ghost use Rattle.wh_record.specs.declared.commit.VersionChangeIn.{VersionChangeIn};

use crate::commit::{
    DROP_TAG, DYNAMIC_STATE_TAG, DYNAMIC_TAG, END_TAG, GROUPS_TAG, OFFSET_TAG, RUN_TAG, STATE_TAG,
    STREAM_TAG, TABLE_TAG, TASK_TAG, VERSION_TAG,
};
use crate::dynamic_encoding::{write_dynamic, write_dynamic_state};
use crate::format::{has_rows, rise};
use crate::groups_encoding::write_groups;
use crate::task_encoding::{write_end, write_run, write_state, write_task};
use crate::{Change, ChangeIn, Commit, StreamChange, TableChange, VersionChange};
use std::alloc::{AllocError, Global};
use wh_dynamic::DynamicQuery;
use wh_part::{Partition, write_text, write_u32, write_u64};
use wh_task::TaskBody;
use wh_value::{Bytes, Column, ColumnType};
use wh_world::Framed;

fn byte_of_type(column_type: ColumnType) -> u8
    ensures { result ≡ type_byte (type_of column_type) }
{
    match column_type {
        ColumnType::Number => 1,
        ColumnType::Varchar => 2,
        ColumnType::Boolean => 3,
    }
}

/// Adds the count of a list; one that doesn't fit four bytes is taken for memory that ran out.
pub(crate) fn write_count(out: &mut Bytes, count: usize) -> Result<(), AllocError>
    ensures written { OnOk result (out.new ≡ out.old ++ to_be_bytes w32 count) }
    ensures fits { OnOk result (count < 2 ^ 32) }
{
    if count > u32::MAX as usize {
        return Err(AllocError);
    }
    write_u32(out, count as u32)
}

#[tactic(auto, unfolding(wh_state::specs::Spelling::column_bytes))]
fn write_column(out: &mut Bytes, column: &Column) -> Result<(), AllocError>
    ensures written { OnOk result (out.new ≡ out.old ++ column_bytes (column_of column.now)) }
    ensures spelled { OnOk result (IsColumn (column_of column.now)) }
{
    write_text(out, &column.name)?;
    out.push(byte_of_type(column.column_type))
}

pub(crate) fn write_columns(out: &mut Bytes, columns: &[Column]) -> Result<(), AllocError>
    ensures written { OnOk result (out.new
        ≡ out.old ++ list_bytes column_bytes (map column_of columns.now)) }
    ensures fits { OnOk result (length columns.now < 2 ^ 32) }
    ensures spelled { OnOk result (AllByRecursion IsColumn (map column_of columns.now)) }
{
    write_count(out, columns.len())?;
    write_each_column(out, columns)?;
    Ok(())
}

fn write_each_column(out: &mut Bytes, columns: &[Column]) -> Result<(), AllocError>
    ensures written { OnOk result (out.new
        ≡ out.old ++ flat_map column_bytes (map column_of columns.now)) }
    ensures spelled { OnOk result (AllByRecursion IsColumn (map column_of columns.now)) }
{
    for column in columns {
        write_column(out, column)?;
    }
    Ok(())
}

#[tactic(auto, unfolding(wh_state::specs::Spelling::table_bytes))]
fn write_table(out: &mut Bytes, table: &TableChange) -> Result<(), AllocError>
    ensures written { OnOk result (out.new ≡ out.old ++ table_bytes (table_change_of table.now)) }
    ensures spelled { OnOk result (IsTableChange (table_change_of table.now)) }
{
    write_u32(out, table.id)?;
    write_text(out, &table.name)?;
    out.push(table.retention)?;
    write_columns(out, &table.columns)
}

fn write_added(out: &mut Bytes, width: u32, added: &[Partition]) -> Result<(), AllocError>
    ensures written { OnOk result (out.new ≡ out.old ++ list_bytes partition_bytes added.now) }
    ensures fits { OnOk result (length added.now < 2 ^ 32) }
    ensures spelled { OnOk result (AllByRecursion (IsPartition width) added.now) }
{
    write_count(out, added.len())?;
    write_each_partition(out, width, added)
}

fn write_each_partition(out: &mut Bytes, width: u32, added: &[Partition]) -> Result<(), AllocError>
    ensures written { OnOk result (out.new ≡ out.old ++ flat_map partition_bytes added.now) }
    ensures spelled { OnOk result (AllByRecursion (IsPartition width) added.now) }
{
    for partition in added {
        write_partition(out, width, partition)?;
    }
    Ok(())
}

/// Rows that aren't within the format are taken for memory that ran out.
fn write_partition(out: &mut Bytes, width: u32, partition: &Partition) -> Result<(), AllocError>
    ensures written { OnOk result (out.new ≡ out.old ++ partition_bytes partition.now) }
    ensures spelled { OnOk result (IsPartition width partition.now) }
{
    if !has_rows(width, partition) {
        return Err(AllocError);
    }
    partition.encode(out)?;
    Ok(())
}

/// Numbers that don't rise are taken for memory that ran out.
fn write_removed(out: &mut Bytes, removed: &[u64]) -> Result<(), AllocError>
    ensures written { OnOk result (out.new ≡ out.old ++ list_bytes (to_be_bytes w64) removed.now) }
    ensures fits { OnOk result (length removed.now < 2 ^ 32) }
    ensures rising { OnOk result (NumbersRiseFrom 0 removed.now) }
{
    if !rise(removed) {
        return Err(AllocError);
    }
    write_count(out, removed.len())?;
    write_each_number(out, removed)?;
    Ok(())
}

fn write_each_number(out: &mut Bytes, numbers: &[u64]) -> Result<(), AllocError>
    ensures written { OnOk result (out.new ≡ out.old ++ flat_map (to_be_bytes w64) numbers.now) }
    ensures wide { OnOk result (AllByRecursion (λ n. n < 2 ^ 64) numbers.now) }
{
    for number in numbers {
        write_u64(out, *number)?;
    }
    Ok(())
}

/// The fields before the lists of partitions.
fn write_version_head(out: &mut Bytes, version: &VersionChange) -> Result<(), AllocError>
    ensures written { OnOk result (out.new ≡ out.old ++ (to_be_bytes w32 version.now.id
        ++ to_be_bytes w64 version.now.data_timestamp ++ to_be_bytes w64 version.now.next_row
        ++ to_be_bytes w32 version.now.width)) }
    ensures fits { OnOk result ((version.now.id < 2 ^ 32) × (version.now.data_timestamp < 2 ^ 64)
        × (version.now.next_row < 2 ^ 64) × (version.now.width < 2 ^ 32)) }
{
    write_u32(out, version.id)?;
    write_u64(out, version.data_timestamp)?;
    write_u64(out, version.next_row)?;
    write_u32(out, version.width)?;
    Ok(())
}

#[tactic(auto, unfolding(wh_state::specs::Spelling::version_bytes))]
fn write_version(out: &mut Bytes, version: &VersionChange) -> Result<(), AllocError>
    ensures written { OnOk result (out.new
        ≡ out.old ++ version_bytes (version_change_of version.now)) }
    ensures spelled { OnOk result (IsVersionChange (version_change_of version.now)) }
{
    write_version_head(out, version)?;
    write_removed(out, &version.removed)?;
    write_added(out, version.width, &version.added)?;
    Ok(())
}

fn byte_of_kind(is_append_only: bool) -> u8
    ensures { result ≡ stream_kind_byte is_append_only }
{
    if is_append_only { 2 } else { 1 }
}

#[tactic(auto, unfolding(wh_state::specs::Spelling::stream_bytes))]
fn write_stream(out: &mut Bytes, stream: &StreamChange) -> Result<(), AllocError>
    ensures written { OnOk result (out.new
        ≡ out.old ++ stream_bytes (stream_change_of stream.now)) }
    ensures spelled { OnOk result (IsStreamChange (stream_change_of stream.now)) }
{
    write_u32(out, stream.id)?;
    write_text(out, &stream.name)?;
    write_u32(out, stream.source)?;
    out.push(byte_of_kind(stream.is_append_only))?;
    write_u64(out, stream.offset)
}

fn write_offset(out: &mut Bytes, id: u32, offset: u64) -> Result<(), AllocError>
    ensures written { OnOk result (out.new ≡ out.old ++ offset_bytes id offset) }
    ensures fits { OnOk result ((id < 2 ^ 32) × (offset < 2 ^ 64)) }
{
    write_u32(out, id)?;
    write_u64(out, offset)?;
    Ok(())
}

/// Adds a change that is no new version, whatever is told of partitions; one that is, is refused.
#[tactic(auto, unfolding(wh_state::specs::Spelling::change_bytes))]
pub(crate) fn write_plain<P>(
    out: &mut Bytes,
    change: &ChangeIn<TaskBody, DynamicQuery, P>,
) -> Result<(), AllocError>
    ensures written { (version_by : VersionChangeIn P → machine.VersionChange) → OnOk result
        (out.new ≡ out.old ++ change_bytes (written_with version_by change.now)) }
    ensures spelled { (version_by : VersionChangeIn P → machine.VersionChange) → OnOk result
        (IsChange (written_with version_by change.now)) }
{
    match change {
        ChangeIn::PushesVersion(_) => Err(AllocError),
        ChangeIn::CreatesTable(table) => {
            out.push(TABLE_TAG)?;
            write_table(out, table)
        }
        ChangeIn::Drops(id) => {
            out.push(DROP_TAG)?;
            write_u32(out, *id)
        }
        ChangeIn::CreatesStream(stream) => {
            out.push(STREAM_TAG)?;
            write_stream(out, stream)
        }
        ChangeIn::SetsOffset { id, offset } => {
            out.push(OFFSET_TAG)?;
            write_offset(out, *id, *offset)
        }
        ChangeIn::CreatesTask(task) => {
            out.push(TASK_TAG)?;
            write_task(out, task)
        }
        ChangeIn::SetsTask { id, state } => {
            out.push(STATE_TAG)?;
            write_state(out, *id, *state)
        }
        ChangeIn::StartsRun { root, tasks } => {
            out.push(RUN_TAG)?;
            write_run(out, *root, tasks)
        }
        ChangeIn::FinishesTask { root, task, ending } => {
            out.push(END_TAG)?;
            write_end(out, *root, *task, *ending)
        }
        ChangeIn::CreatesDynamic(table) => {
            out.push(DYNAMIC_TAG)?;
            write_dynamic(out, table)
        }
        ChangeIn::SetsDynamic { id, state } => {
            out.push(DYNAMIC_STATE_TAG)?;
            write_dynamic_state(out, *id, *state)
        }
        ChangeIn::SetsGroups { id, groups } => {
            out.push(GROUPS_TAG)?;
            write_groups(out, *id, groups)
        }
    }
}

#[tactic(auto, unfolding(wh_state::specs::Spelling::change_bytes))]
fn write_change(out: &mut Bytes, change: &Change) -> Result<(), AllocError>
    ensures written { OnOk result (out.new ≡ out.old ++ change_bytes (written_of change.now)) }
    ensures spelled { OnOk result (IsChange (written_of change.now)) }
{
    match change {
        Change::PushesVersion(version) => {
            out.push(VERSION_TAG)?;
            write_version(out, version)
        }
        _ => write_plain(out, change),
    }
}

fn write_changes(out: &mut Bytes, changes: &[Change]) -> Result<(), AllocError>
    ensures written { OnOk result (out.new
        ≡ out.old ++ list_bytes change_bytes (map written_of changes.now)) }
    ensures fits { OnOk result (length changes.now < 2 ^ 32) }
    ensures spelled { OnOk result (AllByRecursion IsChange (map written_of changes.now)) }
{
    write_count(out, changes.len())?;
    write_each_change(out, changes)?;
    Ok(())
}

fn write_each_change(out: &mut Bytes, changes: &[Change]) -> Result<(), AllocError>
    ensures written { OnOk result (out.new
        ≡ out.old ++ flat_map change_bytes (map written_of changes.now)) }
    ensures spelled { OnOk result (AllByRecursion IsChange (map written_of changes.now)) }
{
    for change in changes {
        write_change(out, change)?;
    }
    Ok(())
}

#[tactic(auto, unfolding(wh_state::specs::Spelling::text_payload))]
fn write_commit(out: &mut Bytes, commit: &Commit) -> Result<(), AllocError>
    ensures written { OnOk result (out.new ≡ out.old ++ payload_of (commit_of commit.now)) }
    ensures spelled { OnOk result (IsTextCommit (as_text (commit_of commit.now))) }
{
    write_u64(out, commit.stamp)?;
    write_changes(out, &commit.changes)?;
    Ok(())
}

impl Commit {
    ghost use Rattle.std.specs.Prelude.{◌≡◌, IfOk, OnOk};
    ghost use Rattle.wh_state.specs.Commit.{as_text};
    ghost use Rattle.wh_state.specs.Spelling.{payload_of, IsTextCommit};
    ghost use Rattle.wh_record.specs.View.{commit_of};

    /// The record of the commit. `AllocError` is also the answer where a list's count doesn't fit
    /// four bytes, a row or a key has another number of values than is said, a number has more than
    /// 18 digits, the numbers of removed partitions, the ids of a run's tasks or the keys of groups
    /// don't rise, or a group has no rows or another number of totals than calls. No run makes such
    /// a commit.
    pub fn encode(&self, alloc: Global) -> Result<Framed, AllocError>
        ensures payload { IfOk result (λ framed. framed ≡ payload_of (commit_of self.now)) }
        ensures written { OnOk result (IsTextCommit (as_text (commit_of self.now))) }
    {
        let mut payload = Bytes::new(alloc);
        write_commit(&mut payload, self)?;
        Framed::of(alloc, payload.as_slice())
    }
}

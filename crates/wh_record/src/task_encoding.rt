ghost use Rattle.std.specs.Prelude.{◌≡◌, ◌<◌, ◌^◌, ◌++◌, length, OnOk};
ghost use Rattle.std.specs.List.{flat_map, AllByRecursion};
ghost use Rattle.std.specs.Int.{w32, to_be_bytes};
ghost use Rattle.wh_value.specs.Value.{IsText};
ghost use Rattle.wh_frame.specs.Spelling.{text_bytes, list_bytes};
ghost use Rattle.wh_state.specs.Commit.{task_as_text};
ghost use Rattle.wh_state.specs.Task.{texts_of};
ghost use Rattle.wh_state.specs.Spelling.{task_bytes, truth_byte, state_bytes, run_bytes};
ghost use Rattle.wh_state.specs.Spelling.{ending_byte, end_bytes, IsTaskChange, IsTaskState};
ghost use Rattle.wh_state.specs.Spelling.{IdsRiseFrom, IsRunChange};
ghost use Rattle.wh_task.specs.View.{body_of, state_of, ending_of};
ghost use Rattle.wh_record.specs.View.{task_change_of};

use crate::TaskChange;
use crate::encoding::write_count;
use crate::format::ids_rise;
use std::alloc::AllocError;
use wh_part::{write_text, write_u32, write_u64};
use wh_task::{Ending, TaskBody, TaskState};
use wh_value::Bytes;

fn write_ids(out: &mut Bytes, ids: &[u32]) -> Result<(), AllocError>
    ensures written { OnOk result (out.new ≡ out.old ++ list_bytes (to_be_bytes w32) ids.now) }
    ensures fits { OnOk result (length ids.now < 2 ^ 32) }
    ensures wide { OnOk result (AllByRecursion (λ id. id < 2 ^ 32) ids.now) }
{
    write_count(out, ids.len())?;
    write_each_id(out, ids)
}

fn write_each_id(out: &mut Bytes, ids: &[u32]) -> Result<(), AllocError>
    ensures written { OnOk result (out.new ≡ out.old ++ flat_map (to_be_bytes w32) ids.now) }
    ensures wide { OnOk result (AllByRecursion (λ id. id < 2 ^ 32) ids.now) }
{
    for id in ids {
        write_u32(out, *id)?;
    }
    Ok(())
}

/// The text of a task's condition; it is empty where there is none.
fn write_condition(out: &mut Bytes, runs: &TaskBody) -> Result<(), AllocError>
    ensures written { OnOk result (out.new
        ≡ out.old ++ text_bytes (texts_of (body_of runs.now)).when) }
    ensures text { OnOk result (IsText (texts_of (body_of runs.now)).when) }
{
    match &runs.when {
        Some(when) => write_text(out, &when.get().text),
        None => write_u32(out, 0),
    }
}

#[tactic(auto, unfolding(wh_state::specs::Spelling::task_bytes))]
pub(crate) fn write_task(out: &mut Bytes, task: &TaskChange) -> Result<(), AllocError>
    ensures written { OnOk result (out.new
        ≡ out.old ++ task_bytes (task_as_text (task_change_of task.now))) }
    ensures spelled { OnOk result (IsTaskChange (task_as_text (task_change_of task.now))) }
{
    write_u32(out, task.id)?;
    write_text(out, &task.name)?;
    write_u32(out, task.minutes)?;
    write_ids(out, &task.after)?;
    write_condition(out, &task.runs)?;
    write_text(out, &task.runs.body_text)
}

pub(crate) fn byte_of_truth(truth: bool) -> u8
    ensures { result ≡ truth_byte truth }
{
    if truth { 1 } else { 0 }
}

#[tactic(auto, unfolding(wh_state::specs::Spelling::state_bytes))]
pub(crate) fn write_state(out: &mut Bytes, id: u32, state: TaskState) -> Result<(), AllocError>
    ensures written { OnOk result (out.new ≡ out.old ++ state_bytes id (state_of state)) }
    ensures spelled { OnOk result (IsTaskState id (state_of state)) }
{
    write_u32(out, id)?;
    out.push(byte_of_truth(state.is_resumed))?;
    write_u64(out, state.base)?;
    write_u64(out, state.last_start)?;
    write_u32(out, state.failures)?;
    Ok(())
}

/// Ids that don't rise are taken for memory that ran out.
#[tactic(auto, unfolding(wh_state::specs::Spelling::run_bytes))]
pub(crate) fn write_run(out: &mut Bytes, root: u32, tasks: &[u32]) -> Result<(), AllocError>
    ensures written { OnOk result (out.new ≡ out.old ++ run_bytes root tasks.now) }
    ensures spelled { OnOk result (IsRunChange root tasks.now) }
{
    if !ids_rise(tasks) {
        return Err(AllocError);
    }
    write_u32(out, root)?;
    write_ids(out, tasks)?;
    Ok(())
}

fn byte_of_ending(ending: Ending) -> u8
    ensures { result ≡ ending_byte (ending_of ending) }
{
    match ending {
        Ending::Succeeded => 1,
        Ending::Failed => 2,
        Ending::Skipped => 3,
    }
}

#[tactic(auto, unfolding(wh_state::specs::Spelling::end_bytes))]
pub(crate) fn write_end(
    out: &mut Bytes,
    root: u32,
    task: u32,
    ending: Ending,
) -> Result<(), AllocError>
    ensures written { OnOk result (out.new ≡ out.old ++ end_bytes root task (ending_of ending)) }
    ensures fits { OnOk result ((root < 2 ^ 32) × (task < 2 ^ 32)) }
{
    write_u32(out, root)?;
    write_u32(out, task)?;
    out.push(byte_of_ending(ending))
}

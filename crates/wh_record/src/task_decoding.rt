ghost use Rattle.std.specs.Prelude.{◌≡◌};
ghost use Rattle.std.specs.Int.{w32};
ghost use Rattle.wh_part.specs.Reading.{Gives, items_at, list_at, number_at};
ghost use Rattle.wh_task.specs.View.{state_of, ending_of};
ghost use Rattle.wh_record.specs.Decoding.{texts_at, task_at, truth_at, state_at};
ghost use Rattle.wh_record.specs.Decoding.{rising_ids_at, run_at, ending_at, end_at};
ghost use Rattle.wh_record.specs.View.{texts_in, task_in};

use crate::commit::{TaskChangeIn, TaskTexts};
use crate::format::ids_rise;
use std::alloc::Global;
use wh_part::{ReadError, read_text, read_u32, read_u64};
use wh_task::{Ending, TaskState};

fn read_each_id(alloc: Global, count: u32, bytes: &[u8]) -> Result<(Vec<u32>, &[u8]), ReadError>
    ensures { Gives (λ x. (x.0.items, x.1.now)) result (items_at (number_at w32) count bytes.now) }
{
    let mut ids = Vec::new(alloc);
    let mut rest = bytes;
    for _ in 0..count {
        let (id, after) = read_u32(rest)?;
        ids.push(id)?;
        rest = after;
    }
    Ok((ids, rest))
}

fn read_ids(alloc: Global, bytes: &[u8]) -> Result<(Vec<u32>, &[u8]), ReadError>
    ensures { Gives (λ x. (x.0.items, x.1.now)) result
        (list_at (number_at w32) (number_at w32) bytes.now) }
{
    let (count, rest) = read_u32(bytes)?;
    let (ids, rest) = read_each_id(alloc, count, rest)?;
    Ok((ids, rest))
}

/// The texts of a task's condition and body.
#[tactic(auto, unfolding(crate::specs::Decoding::texts_at))]
fn read_texts(alloc: Global, bytes: &[u8]) -> Result<(TaskTexts, &[u8]), ReadError>
    ensures { Gives (λ x. (texts_in x.0, x.1.now)) result (texts_at bytes.now) }
{
    let (when, rest) = read_text(alloc, bytes)?;
    let (body, rest) = read_text(alloc, rest)?;
    Ok((TaskTexts { when, body }, rest))
}

#[tactic(auto, unfolding(crate::specs::Decoding::task_at))]
pub(crate) fn read_task(
    alloc: Global,
    bytes: &[u8],
) -> Result<(TaskChangeIn<TaskTexts>, &[u8]), ReadError>
    ensures { Gives (λ x. (task_in texts_in x.0, x.1.now)) result (task_at bytes.now) }
{
    let (id, rest) = read_u32(bytes)?;
    let (name, rest) = read_text(alloc, rest)?;
    let (minutes, rest) = read_u32(rest)?;
    let (after, rest) = read_ids(alloc, rest)?;
    let (runs, rest) = read_texts(alloc, rest)?;
    let task = TaskChangeIn {
        id,
        name,
        minutes,
        after,
        runs,
    };
    Ok((task, rest))
}

#[tactic(auto, unfolding(crate::specs::Decoding::truth_at))]
pub(crate) fn read_truth(bytes: &[u8]) -> Result<(bool, &[u8]), ReadError>
    ensures { Gives (λ x. (x.0, x.1.now)) result (truth_at bytes.now) }
{
    match bytes {
        [0, rest @ ..] => Ok((false, rest)),
        [1, rest @ ..] => Ok((true, rest)),
        _ => Err(ReadError::Malformed),
    }
}

/// The id of a task, and its state.
#[tactic(auto, unfolding(crate::specs::Decoding::state_at))]
pub(crate) fn read_state(bytes: &[u8]) -> Result<((u32, TaskState), &[u8]), ReadError>
    ensures { Gives (λ x. ((x.0.0, state_of x.0.1), x.1.now)) result (state_at bytes.now) }
{
    let (id, rest) = read_u32(bytes)?;
    let (is_resumed, rest) = read_truth(rest)?;
    let (base, rest) = read_u64(rest)?;
    let (last_start, rest) = read_u64(rest)?;
    let (failures, rest) = read_u32(rest)?;
    let state = TaskState {
        is_resumed,
        base,
        last_start,
        failures,
    };
    Ok(((id, state), rest))
}

/// The tasks of a run, whose ids have to rise.
#[tactic(auto, unfolding(crate::specs::Decoding::rising_ids_at))]
fn read_rising_ids(alloc: Global, bytes: &[u8]) -> Result<(Vec<u32>, &[u8]), ReadError>
    ensures { Gives (λ x. (x.0.items, x.1.now)) result (rising_ids_at bytes.now) }
{
    let (ids, rest) = read_ids(alloc, bytes)?;
    if !ids_rise(&ids) {
        return Err(ReadError::Malformed);
    }
    Ok((ids, rest))
}

/// The id of a root, and the tasks of its run.
#[tactic(auto, unfolding(crate::specs::Decoding::run_at))]
pub(crate) fn read_run(alloc: Global, bytes: &[u8]) -> Result<((u32, Vec<u32>), &[u8]), ReadError>
    ensures { Gives (λ x. ((x.0.0, x.0.1.items), x.1.now)) result (run_at bytes.now) }
{
    let (root, rest) = read_u32(bytes)?;
    let (tasks, rest) = read_rising_ids(alloc, rest)?;
    Ok(((root, tasks), rest))
}

#[tactic(auto, unfolding(crate::specs::Decoding::ending_at))]
fn read_ending(bytes: &[u8]) -> Result<(Ending, &[u8]), ReadError>
    ensures { Gives (λ x. (ending_of x.0, x.1.now)) result (ending_at bytes.now) }
{
    match bytes {
        [1, rest @ ..] => Ok((Ending::Succeeded, rest)),
        [2, rest @ ..] => Ok((Ending::Failed, rest)),
        [3, rest @ ..] => Ok((Ending::Skipped, rest)),
        _ => Err(ReadError::Malformed),
    }
}

/// The ids of a root and of a task of its run, and how that ended.
#[tactic(auto, unfolding(crate::specs::Decoding::end_at))]
pub(crate) fn read_end(bytes: &[u8]) -> Result<((u32, u32, Ending), &[u8]), ReadError>
    ensures { Gives (λ x. ((x.0.0, (x.0.1, ending_of x.0.2)), x.1.now)) result (end_at bytes.now) }
{
    let (root, rest) = read_u32(bytes)?;
    let (task, rest) = read_u32(rest)?;
    let (ending, rest) = read_ending(rest)?;
    Ok(((root, task, ending), rest))
}

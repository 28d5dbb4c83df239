ghost use Rattle.std.specs.Prelude.{◌≡◌, [], ◌∷◌, IfOk};
ghost use Rattle.wh_graph.specs.Graph as graph;
ghost use Rattle.wh_task.specs.View.{tasks_of, live_of, run_of, ending_of};

use crate::begins::follows_one;
use crate::run::{Ending, TaskRun};
use crate::task::Task;
use std::alloc::{AllocError, Global};

/// The tasks of a run that become SKIPPED behind one of them that ended. `tasks` are the live tasks
/// by their ids from 1, and `run` is as it was before.
pub fn skipped_behind(
    alloc: Global,
    tasks: &[Option<&Task>],
    run: &[TaskRun],
    task: u32,
    ending: Ending,
) -> Result<Vec<u32>, AllocError>
    ensures { IfOk result (λ skipped. skipped.items
        ≡ graph.skipped_behind (tasks_of tasks.now) (run_of run.now) task (ending_of ending)) }
{
    match ending {
        Ending::Succeeded => Ok(Vec::new(alloc)),
        Ending::Failed | Ending::Skipped => reached_in(alloc, tasks, run, task),
    }
}

// The tasks of a run that wait and are reached from one through tasks of the run.
fn reached_in(
    alloc: Global,
    tasks: &[Option<&Task>],
    run: &[TaskRun],
    task: u32,
) -> Result<Vec<u32>, AllocError>
    ensures { IfOk result (λ waiting. waiting.items
        ≡ graph.reached_in (tasks_of tasks.now) (task ∷ []) (run_of run.now)) }
{
    let mut reached = vec![in alloc; task]?;
    let mut waiting = Vec::new(alloc);
    for next in run {
        if follows_one(after_of(tasks, next.task), &reached) {
            reached.push(next.task)?;
            if next.is_waiting() {
                waiting.push(next.task)?;
            }
        }
    }
    Ok(waiting)
}

// The predecessors of the task of an id.
pub(crate) fn after_of<'a>(tasks: &[Option<&'a Task>], id: u32) -> &'a [u32]
    ensures { result.now ≡ graph.after_of (tasks_of tasks.now) id }
{
    match task_of(tasks, id) {
        Some(task) => &task.after,
        None => &[],
    }
}

pub(crate) fn task_of<'a>(tasks: &[Option<&'a Task>], id: u32) -> Option<&'a Task>
    ensures { live_of result ≡ graph.task_of (tasks_of tasks.now) id }
{
    if id == 0 {
        return None;
    }
    match tasks.get(id as usize - 1) {
        Some(task) => *task,
        None => None,
    }
}

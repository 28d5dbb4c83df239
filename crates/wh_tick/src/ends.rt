//! What the end of a task does to the run of its root, and the changes that say it.
ghost use Rattle.std.specs.Prelude.{◌≡◌, ◌++◌, Some, map, IfOk, OnOk};
ghost use Rattle.wh_state.specs.Commit.{FinishesTask};
ghost use Rattle.wh_state.specs.Task.{Skipped};
ghost use Rattle.wh_graph.specs.Graph as graph;
ghost use Rattle.wh_task.specs.View.{ending_of, run_of, state_of, task_run_of, tasks_of};
ghost use Rattle.wh_record.specs.View.{change_of};
ghost use Rattle.wh_tick.specs.Ends.{run_as, behind_as, count_written, end_changes};

use std::alloc::{AllocError, Global};
use wh_record::Change;
use wh_task::{Ending, Task, TaskRun, TaskState, has_failed, is_under_way, skipped_behind};

/// What the end of a task leaves: the tasks that become SKIPPED behind it, and the run.
#[derive(Debug, Drop)]
pub(crate) struct End {
    pub skipped: Vec<u32>,
    pub run: Vec<TaskRun>,
}

/// What it leaves of a run, whose task ends so. `tasks` are the live tasks by their ids from 1.
pub(crate) fn end_of(
    alloc: Global,
    tasks: &[Option<&Task>],
    run: &[TaskRun],
    task: u32,
    ending: Ending,
) -> Result<End, AllocError>
    ensures skipped { IfOk result (λ end. end.skipped.items
        ≡ graph.skipped_behind (tasks_of tasks.now) (run_of run.now) task (ending_of ending)) }
    ensures run { IfOk result (λ end. run_of end.run.items
        ≡ graph.run_behind (tasks_of tasks.now) (run_of run.now) task (ending_of ending)) }
{
    let skipped = skipped_behind(alloc, tasks, run, task, ending)?;
    let run = run_behind(alloc, run, task, ending, &skipped)?;
    Ok(End { skipped, run })
}

// The run behind the end of a task, with those that are skipped.
fn run_behind(
    alloc: Global,
    run: &[TaskRun],
    task: u32,
    ending: Ending,
    skipped: &[u32],
) -> Result<Vec<TaskRun>, AllocError>
    ensures { IfOk result (λ behind. run_of behind.items
        ≡ run_as skipped.now task (ending_of ending) (run_of run.now)) }
{
    let mut behind = Vec::new(alloc);
    for one in run {
        behind.push(one_behind(one, task, ending, skipped))?;
    }
    Ok(behind)
}

fn one_behind(one: &TaskRun, task: u32, ending: Ending, skipped: &[u32]) -> TaskRun
    ensures { task_run_of result
        ≡ behind_as skipped.now task (ending_of ending) (task_run_of one.now) }
{
    if skipped.contains(&one.task) {
        return ended(one, Ending::Skipped);
    }
    if one.task == task {
        return ended(one, ending);
    }
    *one
}

fn ended(one: &TaskRun, ending: Ending) -> TaskRun
    ensures { task_run_of result
        ≡ record (task_run_of one.now) { ending = Some (ending_of ending) } }
{
    TaskRun {
        task: one.task,
        ending: Some(ending),
    }
}

/// Adds the changes of a task's end: its own, those of the tasks that are skipped, and the root's
/// state where the run ends and its count of failures changes.
pub(crate) fn add_end(
    changes: &mut Vec<Change>,
    root: u32,
    state: TaskState,
    task: u32,
    ending: Ending,
    end: &End,
) -> Result<(), AllocError>
    ensures { OnOk result (map change_of changes.new.items ≡ map change_of changes.old.items
        ++ end_changes root (state_of state) task (ending_of ending) end.now.skipped.items
        (run_of end.now.run.items)) }
{
    changes.push(Change::FinishesTask { root, task, ending })?;
    add_skipped(changes, root, &end.skipped)?;
    add_count(changes, root, state, &end.run)
}

fn add_skipped(changes: &mut Vec<Change>, root: u32, skipped: &[u32]) -> Result<(), AllocError>
    ensures { OnOk result (map change_of changes.new.items ≡ map change_of changes.old.items
        ++ map (λ id. FinishesTask root id Skipped) skipped.now) }
{
    for task in skipped {
        changes.push(Change::FinishesTask {
            root,
            task: *task,
            ending: Ending::Skipped,
        })?;
    }
    Ok(())
}

fn add_count(
    changes: &mut Vec<Change>,
    root: u32,
    state: TaskState,
    run: &[TaskRun],
) -> Result<(), AllocError>
    ensures { OnOk result (map change_of changes.new.items ≡ map change_of changes.old.items
        ++ count_written root (state_of state) (run_of run.now)) }
{
    if is_under_way(run) {
        return Ok(());
    }
    let behind = state.behind(has_failed(run));
    if behind.failures == state.failures {
        return Ok(());
    }
    changes.push(Change::SetsTask {
        id: root,
        state: behind,
    })?;
    Ok(())
}

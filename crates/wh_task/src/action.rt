ghost use Rattle.std.specs.Prelude.{◌≡◌, ◌<◌, ◌^◌, false, not, length, option_map};
ghost use Rattle.wh_state.specs.Edits.{is_among};
ghost use Rattle.std.specs.Option.{option_map_or};
ghost use Rattle.wh_graph.specs.Action as graph;
ghost use Rattle.wh_graph.specs.Root as root;
ghost use Rattle.wh_task.specs.View.{action_of, tasks_of, run_of, task_run_of, live_of};

use crate::ends::after_of;
use crate::run::{TaskRun, are_done};
use crate::task::Task;

/// What a tick carries out.
#[derive(Clone, Copy, Debug, PartialEq, Eq)]
pub enum Action {
    /// A task of a root's run that is ready.
    RunTask { root: u32, task: u32 },
    /// A run of a root that is due.
    StartRun { root: u32 },
    Nothing,
}

/// The ready task with the least root and then the least id, else the due root with the least id.
/// `tasks` are the live tasks by their ids from 1; those of `held` wait for an open transaction
/// that holds what they change or read.
#[tactic(auto, unfolding(wh_graph::specs::Action::action))]
pub fn next_action(tasks: &[Option<&Task>], held: &[u32], stamp: u64) -> Action
    requires { length tasks.now < 2 ^ 32 }
    ensures { action_of result
        ≡ graph.action (λ id. not (is_among id held.now)) (tasks_of tasks.now) stamp }
{
    if let Some((root, task)) = ready_task(tasks, held) {
        return Action::RunTask { root, task };
    }
    match due_root(tasks, stamp) {
        Some(root) => Action::StartRun { root },
        None => Action::Nothing,
    }
}

// The task that is ready first, with its root.
fn ready_task(tasks: &[Option<&Task>], held: &[u32]) -> Option<(u32, u32)>
    requires { length tasks.now < 2 ^ 32 }
    ensures { option_map (λ p. (p.0, p.1)) result
        ≡ graph.ready_task (λ id. not (is_among id held.now)) (tasks_of tasks.now) }
{
    let mut root = 0;
    for task in tasks {
        root += 1;
        if let Some(ready) = ready_in(tasks, *task, held) {
            return Some((root, ready));
        }
    }
    None
}

// The task of a root's run that is ready first.
fn ready_in(tasks: &[Option<&Task>], root: Option<&Task>, held: &[u32]) -> Option<u32>
    ensures { option_map (λ id. id) result ≡ graph.ready_in (λ id. not (is_among id held.now))
        (tasks_of tasks.now) (live_of root.entry) }
{
    let root = root?;
    first_ready(tasks, &root.run, held)
}

fn first_ready(tasks: &[Option<&Task>], run: &[TaskRun], held: &[u32]) -> Option<u32>
    ensures { option_map (λ id. id) result ≡ graph.first_ready (λ id. not (is_among id held.now))
        (tasks_of tasks.now) (run_of run.now) (run_of run.now) }
{
    for next in run {
        if is_ready(tasks, run, next, held) {
            return Some(next.task);
        }
    }
    None
}

fn is_ready(tasks: &[Option<&Task>], run: &[TaskRun], next: &TaskRun, held: &[u32]) -> bool
    ensures { result ≡ graph.is_ready (λ id. not (is_among id held.now)) (tasks_of tasks.now)
        (run_of run.now) (task_run_of next.now) }
{
    next.is_waiting() && are_done(run, after_of(tasks, next.task)) && !held.contains(&next.task)
}

fn due_root(tasks: &[Option<&Task>], stamp: u64) -> Option<u32>
    requires { length tasks.now < 2 ^ 32 }
    ensures { option_map (λ id. id) result ≡ graph.due_root (tasks_of tasks.now) stamp }
{
    let mut id = 0;
    for task in tasks {
        id += 1;
        if is_due(*task, stamp) {
            return Some(id);
        }
    }
    None
}

fn is_due(task: Option<&Task>, stamp: u64) -> bool
    ensures { result ≡ option_map_or (root.is_due stamp) (live_of task.entry) false }
{
    match task {
        Some(task) => task.is_due(stamp),
        None => false,
    }
}

ghost use Rattle.std.specs.Prelude.{◌≡◌, ◌<◌, ◌^◌, length, IfOk};
ghost use Rattle.wh_graph.specs.Graph as graph;
ghost use Rattle.wh_task.specs.View.{tasks_of, live_of};

use crate::task::Task;
use std::alloc::{AllocError, Global};

/// The tasks of a run of a root that begins: the root, and each resumed task that has a predecessor
/// in the run. `tasks` are the live tasks by their ids from 1.
#[tactic(auto, unfolding(wh_graph::specs::Graph::kept_tasks))]
pub fn kept_tasks(alloc: Global, tasks: &[Option<&Task>], root: u32) -> Result<Vec<u32>, AllocError>
    requires { length tasks.now < 2 ^ 32 }
    ensures { IfOk result (λ kept. kept.items ≡ graph.kept_tasks (tasks_of tasks.now) root) }
{
    let mut kept = vec![in alloc; root]?;
    let mut id = 0;
    for task in tasks {
        id += 1;
        if joins(&kept, *task) {
            kept.push(id)?;
        }
    }
    Ok(kept)
}

// Whether a task is resumed and has a predecessor in the run.
fn joins(kept: &[u32], task: Option<&Task>) -> bool
    ensures { result ≡ graph.joins kept.now (live_of task.entry) }
{
    match task {
        Some(task) => task.state.is_resumed && follows_one(&task.after, kept),
        None => false,
    }
}

pub(crate) fn follows_one(after: &[u32], ids: &[u32]) -> bool
    ensures { result ≡ graph.follows_one after.now ids.now }
{
    after.iter().any(|id| ids.contains(id))
}

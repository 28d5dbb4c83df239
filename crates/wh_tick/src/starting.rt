//! Runs that begin by the schedule.
ghost use Rattle.std.specs.Prelude.{◌≡◌, ◌∷◌, [], map, IfOk};
ghost use Rattle.wh_state.specs.Commit.{SetsTask, StartsRun};
ghost use Rattle.wh_state.specs.Objects.{live_tasks, task_at};
ghost use Rattle.wh_graph.specs.Graph as graph;
ghost use Rattle.wh_machine.specs.Ticks.{starts_run};
ghost use Rattle.wh_record.specs.View.{change_of};
ghost use Rattle.wh_task.specs.View.{state_of};
ghost use Rattle.wh_catalog.specs.Catalog as catalogs;
ghost use Rattle.wh_decide.specs.Sight.{machine_in, Comes, IsReady};

use crate::lookups::{live_tasks, task_at};
use crate::outcome::{committed, idle};
use std::alloc::{AllocError, Global};
use wh_catalog::Catalog;
use wh_decide::{Decision, Sight, name_of};
use wh_record::Change;
use wh_reply::Reply;
use wh_task::{TaskState, kept_tasks};

/// A run of a root that is due: it has the root, and each resumed task that has a predecessor in
/// it.
pub(crate) fn start_run(alloc: Global, sight: &Sight<'_>, root: u32) -> Result<Decision, AllocError>
    ensures comes { IfOk result (λ decision. Comes sight.now decision
        (starts_run (machine_in sight.now) root
        (task_at (machine_in sight.now).state.objects root))) }
    ensures ready { IfOk result (λ decision. IsReady sight.now decision) }
{
    let Some(task) = task_at(sight.catalog, root) else {
        return Ok(idle(sight));
    };
    let name = name_of(alloc, sight.catalog, root)?;
    let changes = start(alloc, sight.catalog, root, task.state, sight.stamp)?;
    Ok(committed(sight, Reply::Started(name), changes))
}

fn start(
    alloc: Global,
    catalog: &Catalog,
    root: u32,
    state: TaskState,
    stamp: u64,
) -> Result<Vec<Change>, AllocError>
    ensures { IfOk result (λ changes. map change_of changes.items
        ≡ SetsTask root (record (state_of state) { last_start = stamp })
        ∷ StartsRun root
        (graph.kept_tasks (live_tasks (catalogs.state_of catalog.now).objects) root) ∷ []) }
{
    let tasks = live_tasks(alloc, catalog)?;
    let kept = kept_tasks(alloc, &tasks, root)?;
    let state = TaskState {
        last_start: stamp,
        ..state
    };
    let set = Change::SetsTask { id: root, state };
    Ok(vec![in alloc; set, Change::StartsRun { root, tasks: kept }]?)
}

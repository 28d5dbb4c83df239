//! What is told of the end of a task: the tasks that are skipped behind it, and the end of the run.
ghost use Rattle.std.specs.Prelude.{◌≡◌, map, option_map, IfOk};
ghost use Rattle.wh_reply.specs.View.{aftermath_view, graph_view};
ghost use Rattle.wh_state.specs.Objects.{name_at};
ghost use Rattle.wh_machine.specs.Ticks as machine;
ghost use Rattle.wh_task.specs.View as tasks;
ghost use Rattle.wh_catalog.specs.Catalog.{state_of};
ghost use Rattle.wh_decide.specs.Sight.{machine_in};

use crate::ends::End;
use std::alloc::{AllocError, Global};
use wh_catalog::Catalog;
use wh_decide::{Sight, name_of};
use wh_reply::{Aftermath, GraphEnd};
use wh_task::{TaskRun, TaskState, has_failed, is_under_way};
use wh_value::Text;

/// What is told of an end of a task of a root's run, by what it leaves.
pub(crate) fn aftermath(
    alloc: Global,
    sight: &Sight<'_>,
    root: u32,
    state: TaskState,
    end: &End,
) -> Result<Aftermath, AllocError>
    ensures { IfOk result (λ told. aftermath_view told ≡ record {
      skipped = map (name_at (state_of sight.now.catalog.now).objects) end.now.skipped.items;
      graph = machine.graph_end (machine_in sight.now) root (tasks.state_of state)
          (tasks.run_of end.now.run.items);
    }) }
{
    let skipped = names_of(alloc, sight.catalog, &end.skipped)?;
    let graph = graph_end(alloc, sight, root, state, &end.run)?;
    Ok(Aftermath { skipped, graph })
}

fn names_of(alloc: Global, catalog: &Catalog, ids: &[u32]) -> Result<Vec<Text>, AllocError>
    ensures { IfOk result (λ names. names.items
        ≡ map (name_at (state_of catalog.now).objects) ids.now) }
{
    let mut names = Vec::new(alloc);
    for id in ids {
        names.push(name_of(alloc, catalog, *id)?)?;
    }
    Ok(names)
}

// The end of a root's run, where nothing of it waits.
fn graph_end(
    alloc: Global,
    sight: &Sight<'_>,
    root: u32,
    state: TaskState,
    run: &[TaskRun],
) -> Result<Option<GraphEnd>, AllocError>
    ensures { IfOk result (λ end. option_map graph_view end ≡ machine.graph_end
        (machine_in sight.now) root (tasks.state_of state) (tasks.run_of run.now)) }
{
    if is_under_way(run) {
        return Ok(None);
    }
    let has_failed = has_failed(run);
    let is_suspended = state.is_tenth(has_failed);
    let root = name_of(alloc, sight.catalog, root)?;
    Ok(Some(GraphEnd {
        root,
        has_failed,
        is_suspended,
    }))
}

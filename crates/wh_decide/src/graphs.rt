//! What statements over tasks ask of graphs.
ghost use Rattle.std.specs.Prelude.{◌≡◌, ◌<◌, ◌^◌, length, nat_eq, option_map, IfOk};
ghost use Rattle.wh_reply.specs.View.{refusal_view};
ghost use Rattle.wh_state.specs.Edits.{is_among};
ghost use Rattle.wh_graph.specs.Graph as graph;
ghost use Rattle.wh_machine.specs.Tasks as machine;
ghost use Rattle.wh_task.specs.View.{live_of, tasks_of};
ghost use Rattle.wh_catalog.specs.Catalog.{state_of};
ghost use Rattle.wh_decide.specs.Tasks.{meets, follows, first_child};

use crate::reading::name_of;
use std::alloc::{AllocError, Global};
use wh_catalog::Catalog;
use wh_reply::Refusal;
use wh_task::{Task, is_under_way};

// ---- a root

// The root of a task's graph.
pub(crate) fn root_at(catalog: &Catalog, id: u32) -> u32
    ensures { result ≡ machine.root_at (state_of catalog.now).objects id }
{
    match catalog.task(id) {
        Some(task) => task.root,
        None => id,
    }
}

// Where a run of a root is under way.
pub(crate) fn root_running(
    alloc: Global,
    catalog: &Catalog,
    root: u32,
) -> Result<Option<Refusal>, AllocError>
    ensures { IfOk result (λ found. option_map refusal_view found
        ≡ machine.root_running (state_of catalog.now).objects root) }
{
    if !is_running(catalog, root) {
        return Ok(None);
    }
    let name = name_of(alloc, catalog, root)?;
    Ok(Some(Refusal::RootRunning(name)))
}

fn is_running(catalog: &Catalog, root: u32) -> bool
    ensures { result ≡ graph.is_under_way (machine.run_at (state_of catalog.now).objects root) }
{
    match catalog.task(root) {
        Some(task) => is_under_way(&task.run),
        None => false,
    }
}

// Where a root is resumed.
pub(crate) fn root_resumed(
    alloc: Global,
    catalog: &Catalog,
    root: u32,
) -> Result<Option<Refusal>, AllocError>
    ensures { IfOk result (λ found. option_map refusal_view found
        ≡ machine.root_resumed (state_of catalog.now).objects root) }
{
    if !is_resumed(catalog, root) {
        return Ok(None);
    }
    let name = name_of(alloc, catalog, root)?;
    Ok(Some(Refusal::RootNotSuspended(name)))
}

fn is_resumed(catalog: &Catalog, root: u32) -> bool
    ensures { result ≡ machine.is_resumed_at (state_of catalog.now).objects root }
{
    match catalog.task(root) {
        Some(task) => task.state.is_resumed,
        None => false,
    }
}

// ---- live tasks

// How many are of the graph of a root.
pub(crate) fn graph_count(catalog: &Catalog, root: u32) -> u64
    ensures { result ≡ machine.tasks_that (λ t. nat_eq t.root root)
        (state_of catalog.now).objects }
{
    catalog.count_of_root(root)
}

// How many follow one directly.
pub(crate) fn child_count(catalog: &Catalog, parent: u32) -> u64
    ensures { result ≡ machine.tasks_that (λ t. is_among parent t.after)
        (state_of catalog.now).objects }
{
    catalog.child_count(parent)
}

// The least id of one that follows another directly, of those by their ids from 1.
pub(crate) fn first_child(tasks: &[Option<&Task>], parent: u32) -> Option<u32>
    requires { length tasks.now < 2 ^ 32 }
    ensures { option_map (λ id. id) result ≡ first_child parent 1 (tasks_of tasks.now) }
{
    let mut id = 0;
    for task in tasks {
        id += 1;
        if follows(*task, parent) {
            return Some(id);
        }
    }
    None
}

fn follows(task: Option<&Task>, parent: u32) -> bool
    ensures { result ≡ meets (follows parent) (live_of task.entry) }
{
    match task {
        Some(task) => task.after.contains(&parent),
        None => false,
    }
}

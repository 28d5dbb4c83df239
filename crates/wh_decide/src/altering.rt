//! ALTER TASK, EXECUTE TASK and DROP TASK.
ghost use Rattle.std.specs.Prelude.{◌≡◌, ◌∷◌, [], Some, None, map, option_map, IfOk};
ghost use Rattle.wh_reply.specs.View.{refusal_view};
ghost use Rattle.wh_graph.specs.Graph as graph;
ghost use Rattle.wh_state.specs.Commit.{StartsRun};
ghost use Rattle.wh_state.specs.Objects.{task_at, live_tasks};
ghost use Rattle.wh_machine.specs.Definitions.{defines};
ghost use Rattle.wh_machine.specs.Tasks as machine;
ghost use Rattle.wh_task.specs.View as view;
ghost use Rattle.wh_task.specs.View.{task_of};
ghost use Rattle.wh_record.specs.View.{change_of};
ghost use Rattle.wh_catalog.specs.Catalog.{stored_of, state_of};
ghost use Rattle.wh_decide.specs.Sight.{machine_in, Comes};
ghost use Rattle.wh_decide.specs.Tasks.{put_written, put_written_to, drop_refusal};

use crate::decision::Decision;
use crate::definitions::{drop_object, tested};
use crate::graphs::{first_child, root_at, root_resumed, root_running};
use crate::reading::name_of;
use crate::sight::Sight;
use std::alloc::{AllocError, Global};
use wh_catalog::Catalog;
use wh_record::Change;
use wh_reply::{Refusal, Reply};
use wh_task::{Task, TaskState, kept_tasks};

// ---- ALTER TASK

// What ALTER TASK .. RESUME comes to, of a task. The schedule of a root counts from its stamp.
pub(crate) fn resume_task(alloc: Global, sight: &Sight<'_>, id: u32) -> Result<Decision, AllocError>
    ensures { IfOk result (λ decision. Comes sight.now decision
        (defines (machine_in sight.now) sight.now.session None
        (machine.resume_task (machine_in sight.now) None id))) }
{
    let wrong = resume_refusal(alloc, sight.catalog, id)?;
    let reply = Reply::Resumed(name_of(alloc, sight.catalog, id)?);
    let changes = resumption(alloc, sight, id)?;
    Ok(tested(sight, None, wrong, reply, changes))
}

// A task that follows others is resumed only while its root is suspended.
fn resume_refusal(alloc: Global, catalog: &Catalog, id: u32) -> Result<Option<Refusal>, AllocError>
    ensures { IfOk result (λ found. option_map refusal_view found
        ≡ machine.resume_refusal (state_of catalog.now).objects id) }
{
    let root = root_at(catalog, id);
    if root == id {
        return Ok(None);
    }
    root_resumed(alloc, catalog, root)
}

fn resumption(alloc: Global, sight: &Sight<'_>, id: u32) -> Result<Vec<Change>, AllocError>
    ensures { IfOk result (λ changes. map change_of changes.items
        ≡ put_written_to id (machine.resumed_state sight.now.stamp id)
        (task_at (stored_of sight.now.catalog.now).objects id)) }
{
    match sight.catalog.task(id) {
        Some(task) => put_state(alloc, id, task.state, resumed_state(task, id, sight.stamp)),
        None => Ok(Vec::new(alloc)),
    }
}

// The base is that of a root.
fn resumed_state(task: &Task, id: u32, stamp: u64) -> TaskState
    ensures { view.state_of result ≡ machine.resumed_state stamp id (task_of task.now) }
{
    let base = if task.root == id {
        stamp
    } else {
        task.state.base
    };
    TaskState {
        is_resumed: true,
        base,
        last_start: task.state.last_start,
        failures: 0,
    }
}

// What ALTER TASK .. SUSPEND comes to, of a task.
pub(crate) fn suspend_task(
    alloc: Global,
    sight: &Sight<'_>,
    id: u32,
) -> Result<Decision, AllocError>
    ensures { IfOk result (λ decision. Comes sight.now decision
        (defines (machine_in sight.now) sight.now.session None
        (machine.suspend_task (machine_in sight.now) None id))) }
{
    let reply = Reply::Suspended(name_of(alloc, sight.catalog, id)?);
    let changes = suspension(alloc, sight.catalog, id)?;
    Ok(tested(sight, None, None, reply, changes))
}

fn suspension(alloc: Global, catalog: &Catalog, id: u32) -> Result<Vec<Change>, AllocError>
    ensures { IfOk result (λ changes. map change_of changes.items
        ≡ put_written_to id machine.suspended_state
        (task_at (stored_of catalog.now).objects id)) }
{
    match catalog.task(id) {
        Some(task) => put_state(alloc, id, task.state, suspended_state(task)),
        None => Ok(Vec::new(alloc)),
    }
}

fn suspended_state(task: &Task) -> TaskState
    ensures { view.state_of result ≡ machine.suspended_state (task_of task.now) }
{
    TaskState {
        is_resumed: false,
        ..task.state
    }
}

// What is written for a task of another state, nothing where it is so already.
fn put_state(
    alloc: Global,
    id: u32,
    old: TaskState,
    new: TaskState,
) -> Result<Vec<Change>, AllocError>
    ensures { IfOk result (λ changes. map change_of changes.items
        ≡ put_written id (view.state_of old) (view.state_of new)) }
{
    if is_same_state(old, new) {
        return Ok(Vec::new(alloc));
    }
    Ok(vec![in alloc; Change::SetsTask { id, state: new }]?)
}

fn is_same_state(old: TaskState, new: TaskState) -> bool
    ensures { result ≡ machine.is_same_state (view.state_of old) (view.state_of new) }
{
    old.is_resumed == new.is_resumed
        && old.base == new.base
        && old.last_start == new.last_start
        && old.failures == new.failures
}

// ---- EXECUTE TASK

// What EXECUTE TASK comes to, of a root.
pub(crate) fn execute_task(
    alloc: Global,
    sight: &Sight<'_>,
    root: u32,
) -> Result<Decision, AllocError>
    ensures { IfOk result (λ decision. Comes sight.now decision
        (defines (machine_in sight.now) sight.now.session None
        (machine.execute_task (machine_in sight.now) None root))) }
{
    let wrong = root_running(alloc, sight.catalog, root)?;
    let reply = Reply::Started(name_of(alloc, sight.catalog, root)?);
    let changes = start(alloc, sight.catalog, root)?;
    Ok(tested(sight, None, wrong, reply, changes))
}

// A run of a root begins.
fn start(alloc: Global, catalog: &Catalog, root: u32) -> Result<Vec<Change>, AllocError>
    ensures { IfOk result (λ changes. map change_of changes.items
        ≡ StartsRun root (graph.kept_tasks (live_tasks (stored_of catalog.now).objects) root)
        ∷ []) }
{
    let live = catalog.live_tasks(alloc)?;
    let tasks = kept_tasks(alloc, &live, root)?;
    Ok(vec![in alloc; Change::StartsRun { root, tasks }]?)
}

// ---- DROP TASK

// What DROP TASK comes to, of a task.
pub(crate) fn drop_task(alloc: Global, sight: &Sight<'_>, id: u32) -> Result<Decision, AllocError>
    ensures { IfOk result (λ decision. Comes sight.now decision
        (defines (machine_in sight.now) sight.now.session (Some id)
        (machine.drop_task (machine_in sight.now) None id))) }
{
    let wrong = drop_refusal(alloc, sight.catalog, id)?;
    let reply = Reply::DroppedTask(name_of(alloc, sight.catalog, id)?);
    drop_object(alloc, sight, id, wrong, reply)
}

// Its root has to be suspended, with no run under way, and no task may follow it.
fn drop_refusal(alloc: Global, catalog: &Catalog, id: u32) -> Result<Option<Refusal>, AllocError>
    ensures { IfOk result (λ found. option_map refusal_view found
        ≡ drop_refusal (state_of catalog.now).objects id) }
{
    let root = root_at(catalog, id);
    let running = root_running(alloc, catalog, root)?;
    let resumed = root_resumed(alloc, catalog, root)?;
    let child = child_refusal(alloc, catalog, id)?;
    Ok(running.or(resumed).or(child))
}

fn child_refusal(alloc: Global, catalog: &Catalog, id: u32) -> Result<Option<Refusal>, AllocError>
    ensures { IfOk result (λ found. option_map refusal_view found
        ≡ machine.has_children (state_of catalog.now).objects
        (machine.children_from id 1 (state_of catalog.now).objects)) }
{
    let tasks = catalog.live_tasks(alloc)?;
    let Some(child) = first_child(&tasks, id) else {
        return Ok(None);
    };
    let name = name_of(alloc, catalog, child)?;
    Ok(Some(Refusal::HasChildren(name)))
}

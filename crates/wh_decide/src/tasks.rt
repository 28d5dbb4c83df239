ghost use Rattle.std.specs.Prelude.{◌≡◌, ◌≤◌, ◌+◌, None, map, option_map, unwrap_or, IfOk};
ghost use Rattle.wh_value.specs.Limit.{bound};
ghost use Rattle.wh_value.specs.declared.limit.Limit.TheVariants as limits;
ghost use Rattle.wh_reply.specs.View.{refusal_view};
ghost use Rattle.wh_ddl_bind.specs.View.{new_task_of};
ghost use Rattle.wh_state.specs.Commit.{CreatesTask};
ghost use Rattle.wh_machine.specs.Definitions.{defines};
ghost use Rattle.wh_machine.specs.Tasks as machine;
ghost use Rattle.wh_machine.specs.Tests.{first_of};
ghost use Rattle.wh_record.specs.View.{change_of};
ghost use Rattle.wh_catalog.specs.Catalog.{state_of};
ghost use Rattle.wh_decide.specs.Sight.{machine_in, Comes};
ghost use Rattle.wh_decide.specs.Tasks.{limit_refusal, graph_refusal};

use crate::decision::Decision;
use crate::definitions::{count_refusal, defined, definition_refusal, is_long};
use crate::graphs::{child_count, graph_count, root_at, root_resumed};
use crate::limits::{refused_if, refused_past};
use crate::sight::Sight;
use std::alloc::{AllocError, Global};
use wh_catalog::Catalog;
use wh_ddl_bind::NewTask;
use wh_record::{Change, TaskChange};
use wh_reply::{Refusal, Reply};
use wh_task::TaskBody;
use wh_value::Limit;

// What CREATE TASK comes to, whose names are right: a new task, the last of the catalog. It is made
// suspended.
pub(crate) fn create_task(
    alloc: Global,
    sight: &Sight<'_>,
    task: NewTask,
) -> Result<Decision, AllocError>
    ensures { IfOk result (λ decision. Comes sight.now decision
        (defines (machine_in sight.now) sight.now.session None
        (machine.create_task (machine_in sight.now) None (new_task_of task)))) }
{
    let wrong = task_refusal(alloc, sight.catalog, &task)?;
    if let Some(why) = definition_refusal(sight, None, wrong) {
        return Ok(Decision::Refuse(why));
    }
    let id = sight.catalog.object_count() as u32 + 1;
    let reply = Reply::CreatedTask(task.name.copy(alloc)?);
    let changes = vec![in alloc; task_change(task, id)]?;
    Ok(defined(sight, reply, changes))
}

fn task_change(task: NewTask, id: u32) -> Change
    requires { unwrap_or task.minutes 0 ≤ bound limits.MostSchedule }
    ensures { change_of result ≡ CreatesTask (record {
      id = id;
      name = task.name;
      minutes = unwrap_or task.minutes 0;
      after = task.after.items;
      runs = machine.body_of (new_task_of task);
    }) }
{
    let minutes = task.minutes.unwrap_or(0) as u32;
    let runs = TaskBody {
        when: task.when,
        body: task.body,
        body_text: task.body_text,
    };
    Change::CreatesTask(TaskChange {
        id,
        name: task.name,
        minutes,
        after: task.after,
        runs,
    })
}

// ---- the first test that a new task fails whose names are right

fn task_refusal(
    alloc: Global,
    catalog: &Catalog,
    task: &NewTask,
) -> Result<Option<Refusal>, AllocError>
    ensures { IfOk result (λ found. option_map refusal_view found
        ≡ machine.task_refusal (state_of catalog.now) None (new_task_of task.now)) }
{
    if let Some(why) = root_refusal(alloc, catalog, &task.after)? {
        return Ok(Some(why));
    }
    Ok(limit_refusal(catalog, task))
}

// Behind others its root, that of the first, has to be suspended.
fn root_refusal(
    alloc: Global,
    catalog: &Catalog,
    after: &[u32],
) -> Result<Option<Refusal>, AllocError>
    ensures { IfOk result (λ found. option_map refusal_view found
        ≡ first_of (machine.root_refusals (state_of catalog.now).objects after.now)) }
{
    match after {
        [] => Ok(None),
        [first, ..] => root_resumed(alloc, catalog, root_at(catalog, *first)),
    }
}

// The first limit that it is beyond.
fn limit_refusal(catalog: &Catalog, task: &NewTask) -> Option<Refusal>
    ensures { option_map refusal_view result
        ≡ limit_refusal (state_of catalog.now) (new_task_of task.now) }
{
    count_refusal(catalog, None)
        .or(refused_if(is_long(&task.name), Refusal::OverLimit(Limit::Name)))
        .or(graph_refusal(catalog, &task.after))
        .or(schedule_refusal(task.minutes))
}

// So the first of its graph, of its predecessors, and of the children of each of these.
fn graph_refusal(catalog: &Catalog, after: &[u32]) -> Option<Refusal>
    ensures { option_map refusal_view result
        ≡ graph_refusal (state_of catalog.now).objects after.now }
{
    refused_past(Limit::GraphTasks, other_count(catalog, after), 1)
        .or(refused_past(Limit::Predecessors, after.len() as u64, 0))
        .or(children_refusal(catalog, after))
}

// How many other tasks its graph has.
fn other_count(catalog: &Catalog, after: &[u32]) -> u64
    ensures { result + 1 ≡ machine.graph_size (state_of catalog.now).objects after.now }
{
    match after {
        [] => 0,
        [first, ..] => graph_count(catalog, root_at(catalog, *first)),
    }
}

// The first of its predecessors that has no room for one child more.
fn children_refusal(catalog: &Catalog, after: &[u32]) -> Option<Refusal>
    ensures { option_map refusal_view result
        ≡ first_of (map (machine.child_refusal (state_of catalog.now).objects) after.now) }
{
    for id in after {
        if let Some(why) = refused_past(Limit::Children, child_count(catalog, *id), 1) {
            return Some(why);
        }
    }
    None
}

fn schedule_refusal(minutes: Option<u64>) -> Option<Refusal>
    ensures { option_map refusal_view result ≡ machine.schedule_refusal minutes }
{
    match minutes {
        None => None,
        Some(0) => Some(Refusal::OverLimit(Limit::LeastSchedule)),
        Some(minutes) => refused_past(Limit::MostSchedule, minutes, 0),
    }
}

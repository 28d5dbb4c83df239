//! Tasks of runs that wait for an open transaction, which holds what they change or consume.
ghost use Rattle.std.specs.Prelude.{◌≡◌, ◌∷◌, ◌++◌, map, is_some, IfOk, OnOk};
ghost use Rattle.wh_naming.specs.Changes.{bound_change};
ghost use Rattle.wh_naming.specs.View.{named_of};
ghost use Rattle.wh_machine.specs.Ticks as machine;
ghost use Rattle.wh_machine.specs.Ticks.{first_held};
ghost use Rattle.wh_task.specs.View.{live_of, run_of, task_run_of, tasks_of};
ghost use Rattle.wh_txn.specs.View.{sessions_of};
ghost use Rattle.wh_decide.specs.Sight.{machine_in};
ghost use Rattle.wh_tick.specs.Holding.{held_one, held_in, held_of, held_among, is_free_over};

use crate::lookups::task_at;
use std::alloc::{AllocError, Global};
use wh_ast::Dml;
use wh_decide::{Sight, streams_among};
use wh_dml_bind::change_reach;
use wh_naming::Named;
use wh_task::{Task, TaskRun};
use wh_txn::Sessions;

/// Those of the runs of live tasks. `names` are the objects that they may name.
pub(crate) fn held_tasks(
    alloc: Global,
    sight: &Sight<'_>,
    names: &[Named<'_>],
    tasks: &[Option<&Task>],
) -> Result<Vec<u32>, AllocError>
    ensures { IfOk result (λ held. held.items ≡ held_among
        (is_free_over (map named_of names.now) (machine_in sight.now)) (tasks_of tasks.now)) }
{
    let mut held = Vec::new(alloc);
    for task in tasks {
        add_of(&mut held, alloc, sight, names, *task)?;
    }
    Ok(held)
}

fn add_of(
    held: &mut Vec<u32>,
    alloc: Global,
    sight: &Sight<'_>,
    names: &[Named<'_>],
    task: Option<&Task>,
) -> Result<(), AllocError>
    ensures { OnOk result (held.new.items ≡ held.old.items ++ held_of
        (is_free_over (map named_of names.now) (machine_in sight.now)) (live_of task.entry)) }
{
    match task {
        Some(task) => add_in(held, alloc, sight, names, &task.run),
        None => Ok(()),
    }
}

fn add_in(
    held: &mut Vec<u32>,
    alloc: Global,
    sight: &Sight<'_>,
    names: &[Named<'_>],
    run: &[TaskRun],
) -> Result<(), AllocError>
    ensures { OnOk result (held.new.items ≡ held.old.items ++ held_in
        (is_free_over (map named_of names.now) (machine_in sight.now)) (run_of run.now)) }
{
    for one in run {
        add_one(held, alloc, sight, names, one)?;
    }
    Ok(())
}

fn add_one(
    held: &mut Vec<u32>,
    alloc: Global,
    sight: &Sight<'_>,
    names: &[Named<'_>],
    one: &TaskRun,
) -> Result<(), AllocError>
    ensures { OnOk result (held.new.items ≡ held.old.items ++ held_one
        (is_free_over (map named_of names.now) (machine_in sight.now)) (task_run_of one.now)) }
{
    if !one.is_waiting() {
        return Ok(());
    }
    if is_free(alloc, sight, names, one.task)? {
        return Ok(());
    }
    held.push(one.task)?;
    Ok(())
}

fn is_free(
    alloc: Global,
    sight: &Sight<'_>,
    names: &[Named<'_>],
    id: u32,
) -> Result<bool, AllocError>
    ensures { IfOk result (λ free. free
        ≡ is_free_over (map named_of names.now) (machine_in sight.now) id) }
{
    match task_at(sight.catalog, id) {
        Some(task) => {
            let is_held = is_held_back(alloc, sight, names, task.runs.body.get())?;
            Ok(!is_held)
        }
        None => Ok(false),
    }
}

// Whether a transaction of any session holds the target of a statement, or a stream that it reads.
fn is_held_back(
    alloc: Global,
    sight: &Sight<'_>,
    names: &[Named<'_>],
    body: &Dml,
) -> Result<bool, AllocError>
    ensures { IfOk result (λ held. held ≡ machine.is_held_back (machine_in sight.now)
        (bound_change (map named_of names.now) body.now)) }
{
    let reach = change_reach(alloc, names, body)?;
    let (target, sources) = reach;
    let streams = streams_among(alloc, sight.catalog, &sources)?;
    Ok(is_reached(sight.sessions, target, &streams))
}

fn is_reached(sessions: &Sessions, target: u32, streams: &[u32]) -> bool
    ensures { result
        ≡ is_some (first_held (sessions_of sessions.now) (target ∷ streams.now)) }
{
    sessions.holder(target).is_some() || is_one_held(sessions, streams)
}

fn is_one_held(sessions: &Sessions, ids: &[u32]) -> bool
    ensures { result ≡ is_some (first_held (sessions_of sessions.now) ids.now) }
{
    for id in ids {
        if sessions.holder(*id).is_some() {
            return true;
        }
    }
    false
}

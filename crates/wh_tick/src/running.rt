//! A task that runs: the end that it comes to, and what its statement does, in one commit.
ghost use Rattle.std.specs.Prelude.{◌≡◌, ◌++◌, [], List, None, map, IfOk};
ghost use Rattle.wh_fetch.specs.Device.{Counts};
ghost use Rattle.wh_fetch.specs.DiskFetch.{told_of, damage_of, faults_of, IsRight, GoesOn};
ghost use Rattle.wh_reply.specs.Reply as replies;
ghost use Rattle.wh_reply.specs.View.{aftermath_view, counts_view, refusal_view};
ghost use Rattle.wh_state.specs.Act.{Act};
ghost use Rattle.wh_state.specs.Objects.{name_at};
ghost use Rattle.wh_state.specs.Task as endings;
ghost use Rattle.wh_state.specs.Written.{written};
ghost use Rattle.wh_machine.specs.Outcome.{Outcome};
ghost use Rattle.wh_machine.specs.Statements.{bound_changed, changes_in};
ghost use Rattle.wh_machine.specs.Ticks.{aftermath_of, body_bound, carried_in, ends_as, fails_by};
ghost use Rattle.wh_machine.specs.Ticks as machine;
ghost use Rattle.wh_record.specs.View.{change_of};
ghost use Rattle.wh_task.specs.View.{ending_of, task_of};
ghost use Rattle.wh_catalog.specs.Catalog.{stored_of, state_of};
ghost use Rattle.wh_decide.specs.Sight.{machine_in, Comes, IsReady, IsShown};
ghost use Rattle.wh_tick.specs.Changes.{AreRead};
ghost use Rattle.wh_tick.specs.Ends.{end_written};

use crate::carrying::carried_out;
use crate::condition::{Verdict, task_verdict};
use crate::ends::{add_end, end_of};
use crate::lookups::{live_tasks, task_at};
use crate::outcome::{changes_in, committed, counts_in, idle};
use crate::telling::aftermath;
use std::alloc::{AllocError, Global};
use std::thread::Threads;
use wh_ast::Dml;
use wh_decide::{Decision, Sight, name_of};
use wh_fetch::{DiskFetch, FetchFault};
use wh_record::Change;
use wh_reply::{Aftermath, Refusal, Reply, RowCounts};
use wh_task::{Ending, Task, TaskBody};
use wh_value::Text;
use wh_workers::Workers;
use wh_world::Disk;

/// The turn of a task in the run of its root.
#[derive(Clone, Copy, Debug)]
pub(crate) struct Turn<'a> {
    pub root: u32,
    /// The root.
    pub graph: &'a Task,
    pub task: u32,
}

/// What the run of a task comes to.
#[tactic(auto, unfolding(wh_machine::specs::Ticks::run_task))]
pub(crate) fn run_task<R: Threads + Sync, D: Disk>(
    workers: &Workers<'_, R>,
    sight: &Sight<'_>,
    root: u32,
    task: u32,
    fetch: &mut DiskFetch<D>,
) -> Result<Decision, FetchFault>
    requires ticking { sight.now.session ≡ 0 }
    requires right { IsRight D.Disk fetch.old }
    ensures comes { IsShown (told_of D.Disk fetch.old) sight.now
        → IfOk result (λ decision. Comes sight.now decision
        (machine.run_task (machine_in sight.now) root task)) }
    ensures ready { IfOk result (λ decision. IsReady sight.now decision) }
    ensures same { told_of D.Disk fetch.new ≡ told_of D.Disk fetch.old }
    ensures sound { IsShown (told_of D.Disk fetch.old) sight.now
        → damage_of fetch.new ≡ damage_of fetch.old }
    ensures goes { GoesOn D.Disk fetch.old fetch.new }
    ensures counts { Counts (faults_of D.Disk fetch.old) (faults_of D.Disk fetch.new) result }
{
    let Some(graph) = task_at(sight.catalog, root) else {
        return Ok(idle(sight));
    };
    let Some(ready) = task_at(sight.catalog, task) else {
        return Ok(idle(sight));
    };
    let turn = Turn { root, graph, task };
    run_by(workers, sight, &turn, &ready.runs, fetch)
}

// By its condition.
fn run_by<R: Threads + Sync, D: Disk>(
    workers: &Workers<'_, R>,
    sight: &Sight<'_>,
    turn: &Turn<'_>,
    runs: &TaskBody,
    fetch: &mut DiskFetch<D>,
) -> Result<Decision, FetchFault>
    requires ticking { sight.now.session ≡ 0 }
    requires right { IsRight D.Disk fetch.old }
    ensures comes { IsShown (told_of D.Disk fetch.old) sight.now
        → IfOk result (λ decision. Comes sight.now decision
        (machine.runs_by (machine_in sight.now) turn.now.root (task_of turn.now.graph.now)
        turn.now.task runs.now.body (machine.verdict (machine_in sight.now) runs.now.when))) }
    ensures ready { IfOk result (λ decision. IsReady sight.now decision) }
    ensures same { told_of D.Disk fetch.new ≡ told_of D.Disk fetch.old }
    ensures sound { IsShown (told_of D.Disk fetch.old) sight.now
        → damage_of fetch.new ≡ damage_of fetch.old }
    ensures goes { GoesOn D.Disk fetch.old fetch.new }
    ensures counts { Counts (faults_of D.Disk fetch.old) (faults_of D.Disk fetch.new) result }
{
    let alloc = workers.alloc;
    match task_verdict(alloc, sight, &runs.when, fetch)? {
        Verdict::Fails(why) => Ok(fails(alloc, sight, turn, why)?),
        Verdict::HoldsNot => Ok(skips(alloc, sight, turn)?),
        Verdict::Holds => carries(workers, sight, turn, runs.body.get(), fetch),
    }
}

// By its statement. Where memory is wanted or the disk fails the task hasn't run.
fn carries<R: Threads + Sync, D: Disk>(
    workers: &Workers<'_, R>,
    sight: &Sight<'_>,
    turn: &Turn<'_>,
    body: &Dml,
    fetch: &mut DiskFetch<D>,
) -> Result<Decision, FetchFault>
    requires ticking { sight.now.session ≡ 0 }
    requires right { IsRight D.Disk fetch.old }
    ensures comes { IsShown (told_of D.Disk fetch.old) sight.now
        → IfOk result (λ decision. Comes sight.now decision
        (carried_in (machine_in sight.now) turn.now.root (task_of turn.now.graph.now) turn.now.task
        (changes_in (machine_in sight.now) 0 None (bound_changed (machine_in sight.now) 0
        (body_bound (machine_in sight.now) body.now))))) }
    ensures ready { IfOk result (λ decision. IsReady sight.now decision) }
    ensures same { told_of D.Disk fetch.new ≡ told_of D.Disk fetch.old }
    ensures sound { IsShown (told_of D.Disk fetch.old) sight.now
        → damage_of fetch.new ≡ damage_of fetch.old }
    ensures goes { GoesOn D.Disk fetch.old fetch.new }
    ensures counts { Counts (faults_of D.Disk fetch.old) (faults_of D.Disk fetch.new) result }
{
    let decision = carried_out(workers, sight, body, fetch)?;
    Ok(ends_by(workers.alloc, sight, turn, decision)?)
}

// By what its statement comes to.
fn ends_by(
    alloc: Global,
    sight: &Sight<'_>,
    turn: &Turn<'_>,
    decision: Decision,
) -> Result<Decision, AllocError>
    ensures comes { IfOk result (λ ended. (o : Outcome) → Comes sight.now decision o
        → Comes sight.now ended (carried_in (machine_in sight.now) turn.now.root
        (task_of turn.now.graph.now) turn.now.task o)) }
    ensures ready { IsReady sight.now decision
        → IfOk result (λ ended. IsReady sight.now ended) }
{
    match decision {
        Decision::Refuse(why) => fails(alloc, sight, turn, why),
        Decision::Do { reply, settlement } => {
            let counts = counts_in(&reply);
            let changes = changes_in(alloc, settlement);
            succeeds(alloc, sight, turn, counts, changes)
        }
    }
}

// ---- its three ends

fn fails(
    alloc: Global,
    sight: &Sight<'_>,
    turn: &Turn<'_>,
    why: Refusal,
) -> Result<Decision, AllocError>
    ensures comes { IfOk result (λ decision. Comes sight.now decision
        (fails_by (machine_in sight.now) turn.now.root (task_of turn.now.graph.now) turn.now.task
        (refusal_view why))) }
    ensures ready { IfOk result (λ decision. IsReady sight.now decision) }
{
    let end = end_behind(alloc, sight, turn, Ending::Failed, Vec::new(alloc))?;
    let Ended {
        name,
        aftermath,
        changes,
    } = end;
    let reply = Reply::TaskFailed {
        name,
        why,
        aftermath,
    };
    Ok(committed(sight, reply, changes))
}

fn skips(alloc: Global, sight: &Sight<'_>, turn: &Turn<'_>) -> Result<Decision, AllocError>
    ensures comes { IfOk result (λ decision. Comes sight.now decision
        (ends_as (machine_in sight.now) turn.now.root (task_of turn.now.graph.now) turn.now.task
        endings.Skipped (replies.TaskSkipped
        (name_at (state_of sight.now.catalog.now).objects turn.now.task)
        (aftermath_of (machine_in sight.now) turn.now.root (task_of turn.now.graph.now)
        turn.now.task endings.Skipped)) [])) }
    ensures ready { IfOk result (λ decision. IsReady sight.now decision) }
{
    let end = end_behind(alloc, sight, turn, Ending::Skipped, Vec::new(alloc))?;
    let Ended {
        name,
        aftermath,
        changes,
    } = end;
    Ok(committed(sight, Reply::TaskSkipped { name, aftermath }, changes))
}

// With the changes of its statement, and how many rows they change.
fn succeeds(
    alloc: Global,
    sight: &Sight<'_>,
    turn: &Turn<'_>,
    counts: RowCounts,
    changes: Vec<Change>,
) -> Result<Decision, AllocError>
    ensures comes { IfOk result (λ decision. (acts : List Act) → map change_of changes.items
        ≡ written sight.now.stamp (stored_of sight.now.catalog.now).objects acts
        → Comes sight.now decision (ends_as (machine_in sight.now) turn.now.root
        (task_of turn.now.graph.now) turn.now.task endings.Succeeded (replies.TaskSucceeded
        (name_at (state_of sight.now.catalog.now).objects turn.now.task) (counts_view counts)
        (aftermath_of (machine_in sight.now) turn.now.root (task_of turn.now.graph.now)
        turn.now.task endings.Succeeded)) acts)) }
    ensures ready { AreRead (map change_of changes.items)
        → IfOk result (λ decision. IsReady sight.now decision) }
{
    let end = end_behind(alloc, sight, turn, Ending::Succeeded, changes)?;
    let Ended {
        name,
        aftermath,
        changes,
    } = end;
    let reply = Reply::TaskSucceeded {
        name,
        counts,
        aftermath,
    };
    Ok(committed(sight, reply, changes))
}

/// What is told of a task's end, and the changes with it.
#[derive(Debug, Drop)]
struct Ended {
    name: Text,
    aftermath: Aftermath,
    changes: Vec<Change>,
}

// The end of a task, behind the changes of its statement.
fn end_behind(
    alloc: Global,
    sight: &Sight<'_>,
    turn: &Turn<'_>,
    ending: Ending,
    changes: Vec<Change>,
) -> Result<Ended, AllocError>
    ensures name { IfOk result (λ end. end.name
        ≡ name_at (state_of sight.now.catalog.now).objects turn.now.task) }
    ensures aftermath { IfOk result (λ end. aftermath_view end.aftermath
        ≡ aftermath_of (machine_in sight.now) turn.now.root (task_of turn.now.graph.now)
        turn.now.task (ending_of ending)) }
    ensures changes { IfOk result (λ end. map change_of end.changes.items
        ≡ map change_of changes.items ++ end_written (state_of sight.now.catalog.now).objects
        turn.now.root (task_of turn.now.graph.now) turn.now.task (ending_of ending)) }
    ensures read { AreRead (map change_of changes.items)
        → IfOk result (λ end. AreRead (map change_of end.changes.items)) }
{
    let root = turn.graph;
    let tasks = live_tasks(alloc, sight.catalog)?;
    let end = end_of(alloc, &tasks, &root.run, turn.task, ending)?;
    let mut changes = changes;
    add_end(&mut changes, turn.root, root.state, turn.task, ending, &end)?;
    let aftermath = aftermath(alloc, sight, turn.root, root.state, &end)?;
    let name = name_of(alloc, sight.catalog, turn.task)?;
    Ok(Ended {
        name,
        aftermath,
        changes,
    })
}

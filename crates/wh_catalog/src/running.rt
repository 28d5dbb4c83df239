//! States of tasks, and runs of their roots.
ghost use Rattle.std.specs.Prelude.{◌≡◌, IfSome, IfNone};
ghost use Rattle.wh_state.specs.State.{changed_at};
ghost use Rattle.wh_state.specs.Task.{with_state};
ghost use Rattle.wh_state.specs.Objects.{task_at};
ghost use Rattle.wh_task.specs.View.{state_of, run_of};
ghost use Rattle.wh_catalog.specs.Object.{kept_objects, live_in};
ghost use Rattle.wh_catalog.specs.Names.{KeepsNames};
ghost use Rattle.wh_catalog.specs.Back.{on_task_kept, holding};

use crate::object::place_of;
use crate::undo::Step;
use crate::{Catalog, StageFault, StoredKind, StoredObject};
use std::alloc::{AllocError, Global};
use std::mem;
use wh_task::{Ending, TaskRun, TaskState};

impl Catalog {
    ghost use Rattle.std.specs.Prelude.{◌≡◌, OnOk, OnErr, IfOk, IsErrOf, option_map};
    ghost use Rattle.wh_state.specs.State.{at_id, changed_at};
    ghost use Rattle.wh_state.specs.Task.{with_state, with_run, with_ended, ended_in};
    ghost use Rattle.wh_state.specs.Objects.{task_at};
    ghost use Rattle.wh_state.specs.Commit.{StateApplies, RunApplies, EndApplies, on_task_stored};
    ghost use Rattle.wh_task.specs.View.{state_of, run_of, ending_of};
    ghost use Rattle.wh_catalog.specs.Catalog.{objects_of, kept_of};
    ghost use Rattle.wh_catalog.specs.Undo.{step_undone, IsSteady};

    /// Gives the task of an id another state, if it takes it.
    pub(crate) fn set_task(&mut self, id: u32, state: TaskState) -> Result<Step, StageFault>
        ensures applies { OnOk result (StateApplies (at_id (objects_of self.old) id)
            (state_of state)) }
        ensures changed { OnOk result (objects_of self.new
            ≡ changed_at (objects_of self.old) id (on_task_stored (with_state (state_of state)))) }
        ensures steady { IfOk result IsSteady }
        ensures back { IfOk result (λ step. step_undone step (kept_of self.new)
            ≡ kept_of self.old) }
        ensures not_applicable { IsErrOf result StageFault.NotApplicable
            → StateApplies (at_id (objects_of self.old) id) (state_of state) → ⊥ }
        ensures same { OnErr result (kept_of self.new ≡ kept_of self.old) }
        ensures last { self.new.last ≡ self.old.last }
        ensures committed { self.new.committed ≡ self.old.committed }
    {
        if !self.state_applies(id, state) {
            return Err(StageFault::NotApplicable);
        }
        match put_state(&mut self.objects, id, state) {
            Some(before) => Ok(Step::SetTask { id, state: before }),
            None => Err(StageFault::NotApplicable),
        }
    }

    /// Begins a run of a root, in which these tasks wait, if it may begin.
    pub(crate) fn start_run(&mut self, root: u32, tasks: &[u32]) -> Result<Step, StageFault>
        ensures applies { OnOk result (RunApplies (objects_of self.old) root tasks.now) }
        ensures changed { OnOk result (objects_of self.new
            ≡ changed_at (objects_of self.old) root (on_task_stored (with_run tasks.now))) }
        ensures steady { IfOk result IsSteady }
        ensures back { IfOk result (λ step. step_undone step (kept_of self.new)
            ≡ kept_of self.old) }
        ensures not_applicable { IsErrOf result StageFault.NotApplicable
            → RunApplies (objects_of self.old) root tasks.now → ⊥ }
        ensures same { OnErr result (kept_of self.new ≡ kept_of self.old) }
        ensures last { self.new.last ≡ self.old.last }
        ensures committed { self.new.committed ≡ self.old.committed }
    {
        if !self.run_applies(root, tasks) {
            return Err(StageFault::NotApplicable);
        }
        let Ok(run) = waiting_run(self.alloc, tasks) else {
            return Err(StageFault::OutOfMemory);
        };
        match put_run(&mut self.objects, root, run) {
            Some(before) => Ok(Step::SetRun { root, run: before }),
            None => Err(StageFault::NotApplicable),
        }
    }

    /// Ends a task of the run of a root, if it waits there.
    pub(crate) fn finish_task(
        &mut self,
        root: u32,
        task: u32,
        ending: Ending,
    ) -> Result<Step, StageFault>
        ensures applies { OnOk result (EndApplies (at_id (objects_of self.old) root) task) }
        ensures changed { OnOk result (objects_of self.new
            ≡ changed_at (objects_of self.old) root
            (on_task_stored (with_ended task (ending_of ending)))) }
        ensures steady { IfOk result IsSteady }
        ensures back { IfOk result (λ step. step_undone step (kept_of self.new)
            ≡ kept_of self.old) }
        ensures not_applicable { IsErrOf result StageFault.NotApplicable
            → EndApplies (at_id (objects_of self.old) root) task → ⊥ }
        ensures same { OnErr result (kept_of self.new ≡ kept_of self.old) }
        ensures last { self.new.last ≡ self.old.last }
        ensures committed { self.new.committed ≡ self.old.committed }
    {
        let run = self.run_behind(root, task, ending)?;
        match put_run(&mut self.objects, root, run) {
            Some(before) => Ok(Step::SetRun { root, run: before }),
            None => Err(StageFault::NotApplicable),
        }
    }

    // The run of a root when a task has ended that waits in it.
    fn run_behind(&self, root: u32, task: u32, ending: Ending) -> Result<Vec<TaskRun>, StageFault>
        ensures applies { OnOk result (EndApplies (at_id (objects_of self.now) root) task) }
        ensures ended { IfOk result (λ run. option_map (λ t. ended_in task (ending_of ending) t.run)
            (task_at (objects_of self.now) root) ≡ Some (run_of run.items)) }
        ensures not_applicable { IsErrOf result StageFault.NotApplicable
            → EndApplies (at_id (objects_of self.now) root) task → ⊥ }
    {
        let Some(graph) = self.live_task(root) else {
            return Err(StageFault::NotApplicable);
        };
        if !waits_in(&graph.run, task) {
            return Err(StageFault::NotApplicable);
        }
        match ended_run(self.alloc, &graph.run, task, ending) {
            Ok(run) => Ok(run),
            Err(_) => Err(StageFault::OutOfMemory),
        }
    }
}

/// Gives the task of an id another state. The result is that of before.
pub(crate) fn put_state(
    objects: &mut Vec<StoredObject>,
    id: u32,
    state: TaskState,
) -> Option<TaskState>
    ensures put { kept_objects objects.new.items
        ≡ changed_at (kept_objects objects.old.items) id
        (on_task_kept (with_state (state_of state))) }
    ensures back { IfSome result (λ before. changed_at (kept_objects objects.new.items) id
        (on_task_kept (with_state (state_of before))) ≡ kept_objects objects.old.items) }
    ensures none { IfNone result (task_at (kept_objects objects.old.items) id ≡ None) }
    ensures live { live_in objects.new.items ≡ live_in objects.old.items }
    ensures names { KeepsNames objects.old.items objects.new.items }
{
    let place = place_of(objects, id)?;
    let object = &mut objects[place];
    object.put_state(state)
}

/// Gives the task of an id another run. The result is that of before.
pub(crate) fn put_run(
    objects: &mut Vec<StoredObject>,
    root: u32,
    run: Vec<TaskRun>,
) -> Option<Vec<TaskRun>>
    ensures put { kept_objects objects.new.items
        ≡ changed_at (kept_objects objects.old.items) root
        (on_task_kept (holding (run_of run.items))) }
    ensures back { IfSome result (λ before. changed_at (kept_objects objects.new.items) root
        (on_task_kept (holding (run_of before.items))) ≡ kept_objects objects.old.items) }
    ensures none { IfNone result (task_at (kept_objects objects.old.items) root ≡ None) }
    ensures live { live_in objects.new.items ≡ live_in objects.old.items }
    ensures names { KeepsNames objects.old.items objects.new.items }
{
    let place = place_of(objects, root)?;
    let object = &mut objects[place];
    object.put_run(run)
}

impl StoredObject {
    ghost use Rattle.std.specs.Prelude.{◌≡◌, IfSome, IfNone};
    ghost use Rattle.wh_state.specs.State.{task_in};
    ghost use Rattle.wh_state.specs.Task.{with_state};
    ghost use Rattle.wh_task.specs.View.{state_of, run_of};
    ghost use Rattle.wh_catalog.specs.Object.{kept_object};
    ghost use Rattle.wh_catalog.specs.Back.{on_task_kept, holding};

    fn put_state(&mut self, state: TaskState) -> Option<TaskState>
        ensures put { kept_object self.new
            ≡ on_task_kept (with_state (state_of state)) (kept_object self.old) }
        ensures back { IfSome result (λ before.
            on_task_kept (with_state (state_of before)) (kept_object self.new)
            ≡ kept_object self.old) }
        ensures none { IfNone result (task_in (kept_object self.old).kind ≡ None) }
        ensures live { self.new.is_live ≡ self.old.is_live }
        ensures name { self.new.name ≡ self.old.name }
    {
        match &mut self.kind {
            StoredKind::Task(task) => {
                let before = task.state;
                task.state = state;
                Some(before)
            }
            StoredKind::Table(_) | StoredKind::Stream(_) | StoredKind::Dynamic(_, _) => None,
        }
    }

    fn put_run(&mut self, run: Vec<TaskRun>) -> Option<Vec<TaskRun>>
        ensures put { kept_object self.new
            ≡ on_task_kept (holding (run_of run.items)) (kept_object self.old) }
        ensures back { IfSome result (λ before.
            on_task_kept (holding (run_of before.items)) (kept_object self.new)
            ≡ kept_object self.old) }
        ensures none { IfNone result (task_in (kept_object self.old).kind ≡ None) }
        ensures live { self.new.is_live ≡ self.old.is_live }
        ensures name { self.new.name ≡ self.old.name }
    {
        match &mut self.kind {
            StoredKind::Task(task) => Some(mem::replace(&mut task.run, run)),
            StoredKind::Table(_) | StoredKind::Stream(_) | StoredKind::Dynamic(_, _) => None,
        }
    }
}

ghost use Rattle.std.specs.Prelude.{◌&&◌, nat_eq, map, IfOk};
ghost use Rattle.wh_state.specs.Task.{waiting, ended_as, ended_in};
ghost use Rattle.wh_state.specs.Commit.{waits, waits_in};
ghost use Rattle.wh_task.specs.View.{task_run_of, ending_of};

// A run that begins: each of its tasks waits.
fn waiting_run(alloc: Global, tasks: &[u32]) -> Result<Vec<TaskRun>, AllocError>
    ensures { IfOk result (λ run. run_of run.items ≡ map waiting tasks.now) }
{
    let mut run = Vec::new(alloc);
    for task in tasks {
        run.push(TaskRun {
            task: *task,
            ending: None,
        })?;
    }
    Ok(run)
}

// Whether a task of a run waits.
fn waits_in(run: &[TaskRun], task: u32) -> bool
    ensures { result ≡ waits_in (run_of run.now) task }
{
    for next in run {
        if waits_as(next, task) {
            return true;
        }
    }
    false
}

fn waits_as(next: &TaskRun, task: u32) -> bool
    ensures { result ≡ (nat_eq next.now.task task && waits (task_run_of next.now)) }
{
    next.task == task && next.is_waiting()
}

// An equal run, in which a task has ended.
fn ended_run(
    alloc: Global,
    run: &[TaskRun],
    task: u32,
    ending: Ending,
) -> Result<Vec<TaskRun>, AllocError>
    ensures { IfOk result (λ ended. run_of ended.items
        ≡ ended_in task (ending_of ending) (run_of run.now)) }
{
    let mut ended = Vec::new(alloc);
    for next in run {
        ended.push(ended_as(*next, task, ending))?;
    }
    Ok(ended)
}

fn ended_as(next: TaskRun, task: u32, ending: Ending) -> TaskRun
    ensures { task_run_of result ≡ ended_as task (ending_of ending) (task_run_of next) }
{
    if next.task != task {
        return next;
    }
    TaskRun {
        task,
        ending: Some(ending),
    }
}

use crate::consuming::{put_offset_back, set_offset};
use crate::dropping::{drop_object, revive};
use crate::dynamics::{put_dynamic_back, set_dynamic};
use crate::grouping::{put_groups_back, set_groups};
use crate::naming::{change_id, give_id, last_id};
use crate::object::place_of;
use crate::running::{put_run, put_state};
use crate::undo::{Pushed, Step};
use crate::{Catalog, StageFault, StoredObject};
use std::alloc::Global;
use wh_record::{ChangeIn, OutlinedChange, OutlinedVersion};
use wh_value::Limit;

impl Catalog {
    ghost use Rattle.std.specs.Prelude.{◌≡◌, ◌++◌, ◌∷◌, [], OnOk, OnErr, IfOk, IsErrOf};
    ghost use Rattle.wh_state.specs.State.{changed_at, dropped};
    ghost use Rattle.wh_filed.specs.Filed.{AreAmong};
    ghost use Rattle.wh_state.specs.Commit.{ChangeApplies, IsNewObject, MayGo, changed};
    ghost use Rattle.wh_record.specs.View.{change_of};
    ghost use Rattle.wh_record.specs.Places.{filed_in_change};
    ghost use Rattle.wh_version.specs.Lists.{but_last};
    ghost use Rattle.wh_catalog.specs.Undoable.{object_in};
    ghost use Rattle.wh_catalog.specs.Object.{kept_object, filed_in_kind};
    ghost use Rattle.wh_catalog.specs.Catalog.{objects_of, kept_of, filed_of};
    ghost use Rattle.wh_catalog.specs.Undo.{step_undone, IsSteady};

    /// Carries out a change, if it applies. Its tag stands at that position.
    pub(crate) fn carry_out(
        &mut self,
        change: OutlinedChange,
        stamp: u64,
        at: u64,
    ) -> Result<Step, StageFault>
        ensures applies { OnOk result (ChangeApplies (objects_of self.old) (change_of change)) }
        ensures changed { OnOk result (objects_of self.new
            ≡ changed stamp (objects_of self.old) (change_of change)) }
        ensures filed { OnOk result (AreAmong (filed_of self.new)
            (filed_of self.old ++ filed_in_change at (change_of change))) }
        ensures back { IfOk result (λ step. step_undone step (kept_of self.new)
            ≡ kept_of self.old) }
        ensures not_applicable { IsErrOf result StageFault.NotApplicable
            → ChangeApplies (objects_of self.old) (change_of change) → ⊥ }
        ensures same { OnErr result (kept_of self.new ≡ kept_of self.old) }
        ensures last { self.new.last ≡ self.old.last }
        ensures committed { self.new.committed ≡ self.old.committed }
    {
        match change {
            ChangeIn::CreatesTable(change) => {
                let id = change.id;
                let table = self.new_table(change, stamp)?;
                self.add_object(id, table)
            }
            ChangeIn::Drops(id) => self.drop_at(id),
            ChangeIn::PushesVersion(change) => {
                push_version(&mut self.objects, self.alloc, change, stamp, at)
            }
            ChangeIn::CreatesStream(change) => {
                let id = change.id;
                let stream = self.new_stream(change)?;
                self.add_object(id, stream)
            }
            ChangeIn::SetsOffset { id, offset } => set_offset(&mut self.objects, id, offset),
            ChangeIn::CreatesTask(change) => {
                let id = change.id;
                let task = self.new_task(change)?;
                self.add_object(id, task)
            }
            ChangeIn::SetsTask { id, state } => self.set_task(id, state),
            ChangeIn::StartsRun { root, tasks } => self.start_run(root, &tasks),
            ChangeIn::FinishesTask { root, task, ending } => self.finish_task(root, task, ending),
            ChangeIn::CreatesDynamic(change) => {
                let id = change.id;
                let table = self.new_dynamic(change, stamp)?;
                self.add_object(id, table)
            }
            ChangeIn::SetsDynamic { id, state } => set_dynamic(&mut self.objects, id, state),
            ChangeIn::SetsGroups { id, groups } => {
                set_groups(&mut self.objects, self.alloc, id, groups)
            }
        }
    }

    // Drops the object of an id, if it lives and is no task that others need.
    fn drop_at(&mut self, id: u32) -> Result<Step, StageFault>
        ensures applies { OnOk result (MayGo (objects_of self.old) id) }
        ensures changed { OnOk result (objects_of self.new
            ≡ changed_at (objects_of self.old) id dropped) }
        ensures steady { IfOk result IsSteady }
        ensures back { IfOk result (λ step. step_undone step (kept_of self.new)
            ≡ kept_of self.old) }
        ensures not_applicable { IsErrOf result StageFault.NotApplicable
            → MayGo (objects_of self.old) id → ⊥ }
        ensures same { OnErr result (kept_of self.new ≡ kept_of self.old) }
        ensures last { self.new.last ≡ self.old.last }
        ensures committed { self.new.committed ≡ self.old.committed }
    {
        if !self.may_go(id) {
            return Err(StageFault::NotApplicable);
        }
        drop_object(&mut self.objects, id)
    }

    // Adds an object, whose id and name are those of a new one, and which has no partitions yet.
    fn add_object(&mut self, id: u32, object: StoredObject) -> Result<Step, StageFault>
        requires new { IsNewObject (objects_of self.old) id object.name }
        requires nothing { filed_in_kind (kept_object object).kind ≡ [] }
        ensures changed { OnOk result (objects_of self.new
            ≡ objects_of self.old ++ object_in (kept_object object) ∷ []) }
        ensures filed { OnOk result (filed_of self.new ≡ filed_of self.old) }
        ensures back { IfOk result (λ step. step_undone step (kept_of self.new)
            ≡ kept_of self.old) }
        ensures memory { IsErrOf result StageFault.NotApplicable → ⊥ }
        ensures same { OnErr result (kept_of self.new ≡ kept_of self.old) }
        ensures last { self.new.last ≡ self.old.last }
        ensures committed { self.new.committed ≡ self.old.committed }
    {
        if self.objects.reserve(1).is_err() {
            return Err(StageFault::OutOfMemory);
        }
        match give_id(&mut self.names, self.alloc, object.name.as_bytes(), id) {
            Ok(()) => {
                self.objects.push_reserved(object);
                Ok(Step::MadeObject)
            }
            Err(_) => Err(StageFault::OutOfMemory),
        }
    }

    /// Takes a step back.
    pub(crate) fn take_back(&mut self, step: Step)
        ensures back { kept_of self.new ≡ step_undone step (kept_of self.old) }
        ensures last { self.new.last ≡ self.old.last }
        ensures committed { self.new.committed ≡ self.old.committed }
    {
        match step {
            Step::MadeObject => self.take_object_back(),
            Step::DroppedObject(id) => {
                // Whatever the undo is of, no more objects than the limit live, one of each name.
                if self.live_count() < Limit::Objects.bound() && self.is_last(id) {
                    revive(&mut self.objects, id);
                }
            }
            Step::PushedVersion(pushed) => take_version_back(&mut self.objects, pushed),
            Step::SetOffset { id, offset } => put_offset_back(&mut self.objects, id, offset),
            Step::SetTask { id, state } => {
                put_state(&mut self.objects, id, state);
            }
            Step::SetRun { root, run } => {
                put_run(&mut self.objects, root, run);
            }
            Step::SetDynamic { id, state } => put_dynamic_back(&mut self.objects, id, state),
            Step::SetGroups { id, was } => put_groups_back(&mut self.objects, id, was),
        }
    }

    // The last object goes. Its name has the id again of the last one of that name before it.
    fn take_object_back(&mut self)
        ensures back { kept_of self.new ≡ but_last (kept_of self.old) }
        ensures last { self.new.last ≡ self.old.last }
        ensures committed { self.new.committed ≡ self.old.committed }
    {
        if let Some(object) = self.objects.pop() {
            let name = object.name.as_bytes();
            let id = last_id(&self.objects, name);
            change_id(&mut self.names, name, id);
        }
    }
}

ghost use Rattle.std.specs.Prelude.{◌≡◌, ◌++◌, OnOk, OnErr, IfOk, IsErrOf};
ghost use Rattle.wh_filed.specs.Filed.{AreAmong};
ghost use Rattle.wh_state.specs.State.{at_id, changed_at};
ghost use Rattle.wh_state.specs.Commit.{FitsObject, pushed_object};
ghost use Rattle.wh_record.specs.View.{version_change_of};
ghost use Rattle.wh_record.specs.Places.{filed_in_version};
ghost use Rattle.wh_catalog.specs.Object.{kept_objects, stored_objects, live_in, filed_of_objects};
ghost use Rattle.wh_catalog.specs.Names.{KeepsNames};
ghost use Rattle.wh_catalog.specs.Back.{object_taken_back};
ghost use Rattle.wh_catalog.specs.Undo.{step_undone};

// Adds a version to the table of the change.
fn push_version(
    objects: &mut Vec<StoredObject>,
    alloc: Global,
    change: OutlinedVersion,
    stamp: u64,
    at: u64,
) -> Result<Step, StageFault>
    ensures applies { OnOk result (FitsObject
        (at_id (stored_objects objects.old.items) change.id)
        (version_change_of change)) }
    ensures changed { OnOk result (stored_objects objects.new.items
        ≡ changed_at (stored_objects objects.old.items) change.id
        (pushed_object stamp (version_change_of change))) }
    ensures filed { OnOk result (AreAmong (filed_of_objects objects.new.items)
        (filed_of_objects objects.old.items ++ filed_in_version at (version_change_of change))) }
    ensures back { IfOk result (λ step. step_undone step (kept_objects objects.new.items)
        ≡ kept_objects objects.old.items) }
    ensures not_applicable { IsErrOf result StageFault.NotApplicable
        → FitsObject (at_id (stored_objects objects.old.items) change.id)
        (version_change_of change) → ⊥ }
    ensures same { OnErr result (kept_objects objects.new.items
        ≡ kept_objects objects.old.items) }
    ensures live { live_in objects.new.items ≡ live_in objects.old.items }
    ensures names { KeepsNames objects.old.items objects.new.items }
{
    let id = change.id;
    let Some(place) = place_of(objects, id) else {
        return Err(StageFault::NotApplicable);
    };
    let object = &mut objects[place];
    match object.push(alloc, change, stamp, at) {
        Ok(next_row) => Ok(Step::PushedVersion(Pushed { id, next_row })),
        Err(fault) => Err(fault),
    }
}

fn take_version_back(objects: &mut Vec<StoredObject>, pushed: Pushed)
    ensures back { kept_objects objects.new.items
        ≡ changed_at (kept_objects objects.old.items)
        pushed.id (object_taken_back pushed.next_row) }
    ensures live { live_in objects.new.items ≡ live_in objects.old.items }
    ensures names { KeepsNames objects.old.items objects.new.items }
{
    let Some(place) = place_of(objects, pushed.id) else {
        return;
    };
    let object = &mut objects[place];
    object.take_back(pushed.next_row);
}

//! Groups of dynamic tables.
ghost use Rattle.std.specs.Prelude.{◌≡◌, OnOk, OnErr, IfOk, IsErrOf};
ghost use Rattle.wh_state.specs.State.{at_id, changed_at};
ghost use Rattle.wh_state.specs.Dynamic.{behind_change};
ghost use Rattle.wh_state.specs.Commit.{GroupsApply, on_dynamic_stored};
ghost use Rattle.wh_dynamic.specs.View.{groups_change_of};
ghost use Rattle.wh_catalog.specs.Object.{kept_objects, stored_objects, live_in};
ghost use Rattle.wh_catalog.specs.Object.{filed_of_objects};
ghost use Rattle.wh_catalog.specs.Names.{KeepsNames};
ghost use Rattle.wh_catalog.specs.Back.{object_regrouped};
ghost use Rattle.wh_catalog.specs.Undo.{step_undone, IsSteady};

use crate::object::place_of;
use crate::undo::Step;
use crate::{Catalog, StageFault, StoredKind, StoredObject};
use std::alloc::Global;
use wh_dynamic::{Dynamic, GroupsChange, Kept};
use wh_group::{Before, Entry, Groups};
use wh_record::{ChangeIn, OutlinedChange};

/// Sets groups of the dynamic table of an id, if it takes them.
pub(crate) fn set_groups(
    objects: &mut Vec<StoredObject>,
    alloc: Global,
    id: u32,
    groups: GroupsChange,
) -> Result<Step, StageFault>
    ensures applies { OnOk result (GroupsApply
        (at_id (stored_objects objects.old.items) id) (groups_change_of groups)) }
    ensures changed { OnOk result (stored_objects objects.new.items
        ≡ changed_at (stored_objects objects.old.items) id
        (on_dynamic_stored (behind_change (groups_change_of groups)))) }
    ensures steady { IfOk result IsSteady }
    ensures back { IfOk result (λ step. step_undone step (kept_objects objects.new.items)
        ≡ kept_objects objects.old.items) }
    ensures not_applicable { IsErrOf result StageFault.NotApplicable → GroupsApply
        (at_id (stored_objects objects.old.items) id) (groups_change_of groups) → ⊥ }
    ensures same { OnErr result (kept_objects objects.new.items
        ≡ kept_objects objects.old.items) }
    ensures live { live_in objects.new.items ≡ live_in objects.old.items }
    ensures names { KeepsNames objects.old.items objects.new.items }
{
    let Some(place) = place_of(objects, id) else {
        return Err(StageFault::NotApplicable);
    };
    let object = &mut objects[place];
    match object.set_groups(alloc, groups) {
        Ok(was) => Ok(Step::SetGroups { id, was }),
        Err(fault) => Err(fault),
    }
}

/// Puts the groups of before back.
pub(crate) fn put_groups_back(objects: &mut Vec<StoredObject>, id: u32, was: Before)
    ensures back { kept_objects objects.new.items
        ≡ changed_at (kept_objects objects.old.items) id (object_regrouped was) }
    ensures live { live_in objects.new.items ≡ live_in objects.old.items }
    ensures names { KeepsNames objects.old.items objects.new.items }
{
    let Some(place) = place_of(objects, id) else {
        return;
    };
    let object = &mut objects[place];
    object.put_groups_back(was);
}

/// Lets go of the memory of groups that were removed.
pub(crate) fn settle_groups(objects: &mut Vec<StoredObject>, id: u32, was: &Before)
    ensures stored { stored_objects objects.new.items ≡ stored_objects objects.old.items }
    ensures filed { filed_of_objects objects.new.items ≡ filed_of_objects objects.old.items }
    ensures live { live_in objects.new.items ≡ live_in objects.old.items }
    ensures names { KeepsNames objects.old.items objects.new.items }
{
    let Some(place) = place_of(objects, id) else {
        return;
    };
    let object = &mut objects[place];
    object.settle_groups(was);
}

impl StoredObject {
    ghost use Rattle.std.specs.Prelude.{◌≡◌, Some, OnOk, OnErr, IfOk, IsErrOf};
    ghost use Rattle.wh_state.specs.Dynamic.{behind_change};
    ghost use Rattle.wh_state.specs.Commit.{GroupsApply, on_dynamic_stored};
    ghost use Rattle.wh_dynamic.specs.View.{groups_change_of};
    ghost use Rattle.wh_catalog.specs.Undoable.{object_in};
    ghost use Rattle.wh_catalog.specs.Object.{kept_object, filed_in_kind};
    ghost use Rattle.wh_catalog.specs.Back.{object_regrouped};

    // Sets groups of a dynamic table that lives, if it takes them. The result takes that back.
    fn set_groups(&mut self, alloc: Global, groups: GroupsChange) -> Result<Before, StageFault>
        ensures applies { OnOk result (GroupsApply
            (Some (object_in (kept_object self.old))) (groups_change_of groups)) }
        ensures set { OnOk result (object_in (kept_object self.new)
            ≡ on_dynamic_stored (behind_change (groups_change_of groups))
            (object_in (kept_object self.old))) }
        ensures back { IfOk result (λ was. object_regrouped was (kept_object self.new)
            ≡ kept_object self.old) }
        ensures not_applicable { IsErrOf result StageFault.NotApplicable → GroupsApply
            (Some (object_in (kept_object self.old))) (groups_change_of groups) → ⊥ }
        ensures same { OnErr result (kept_object self.new ≡ kept_object self.old) }
        ensures live { self.new.is_live ≡ self.old.is_live }
        ensures name { self.new.name ≡ self.old.name }
    {
        if !self.is_live {
            return Err(StageFault::NotApplicable);
        }
        match &mut self.kind {
            StoredKind::Dynamic(dynamic, _) => {
                if !takes_groups(dynamic, &groups) {
                    return Err(StageFault::NotApplicable);
                }
                let Ok(was) = dynamic.set_groups(alloc, groups) else {
                    return Err(StageFault::OutOfMemory);
                };
                Ok(was)
            }
            StoredKind::Table(_) | StoredKind::Stream(_) | StoredKind::Task(_) => {
                Err(StageFault::NotApplicable)
            }
        }
    }

    fn put_groups_back(&mut self, was: Before)
        ensures back { kept_object self.new ≡ object_regrouped was (kept_object self.old) }
        ensures live { self.new.is_live ≡ self.old.is_live }
        ensures name { self.new.name ≡ self.old.name }
    {
        match &mut self.kind {
            StoredKind::Dynamic(dynamic, _) => dynamic.put_groups_back(was),
            StoredKind::Table(_) | StoredKind::Stream(_) | StoredKind::Task(_) => {}
        }
    }

    fn settle_groups(&mut self, was: &Before)
        ensures stored { object_in (kept_object self.new) ≡ object_in (kept_object self.old) }
        ensures filed { filed_in_kind (kept_object self.new).kind
            ≡ filed_in_kind (kept_object self.old).kind }
        ensures live { self.new.is_live ≡ self.old.is_live }
        ensures name { self.new.name ≡ self.old.name }
    {
        match &mut self.kind {
            StoredKind::Dynamic(dynamic, _) => dynamic.settle_groups(was),
            StoredKind::Table(_) | StoredKind::Stream(_) | StoredKind::Task(_) => {}
        }
    }
}

ghost use Rattle.std.specs.Prelude.{◌&&◌};
ghost use Rattle.std.specs.List.{list_all};
ghost use Rattle.wh_dynamic.specs.View.{dynamic_of, kept_of};
ghost use Rattle.wh_group.specs.Slots.{kept_groups};
ghost use Rattle.wh_catalog.specs.DynamicConditions.{takes_groups, is_taken_by, has_form, may_set};

// Whether it is kept, with so many keys and calls, and each group stands that is removed.
fn takes_groups(dynamic: &Dynamic, groups: &GroupsChange) -> bool
    ensures { result ≡ takes_groups (groups_change_of groups.now) (dynamic_of dynamic.now) }
{
    match dynamic.kept() {
        Some(kept) => is_taken_by(kept, groups),
        None => false,
    }
}

fn is_taken_by(kept: &Kept, groups: &GroupsChange) -> bool
    ensures { result ≡ is_taken_by (groups_change_of groups.now) (kept_of kept.now) }
{
    has_form(kept, groups) && may_set_all(kept.groups(), &groups.entries)
}

fn has_form(kept: &Kept, groups: &GroupsChange) -> bool
    ensures { result ≡ has_form (groups_change_of groups.now) (kept_of kept.now) }
{
    groups.keys == kept.keys() && groups.calls == kept.calls()
}

fn may_set_all(groups: &Groups, entries: &[Entry]) -> bool
    ensures { result ≡ list_all (may_set (kept_groups groups.now)) entries.now }
{
    entries.iter().all(|entry| may_set(groups, entry))
}

fn may_set(groups: &Groups, entry: &Entry) -> bool
    ensures { result ≡ may_set (kept_groups groups.now) entry.now }
{
    entry.group.is_some() || groups.get(&entry.key).is_some()
}

ghost use Rattle.wh_state.specs.Commit as machine;
ghost use Rattle.wh_record.specs.View.{change_of};

/// The id of the table whose groups a change sets.
pub(crate) fn groups_set(change: &OutlinedChange) -> Option<u32>
    ensures { result ≡ machine.groups_set (change_of change.now) }
{
    match change {
        ChangeIn::SetsGroups { id, .. } => Some(*id),
        _ => None,
    }
}

impl Catalog {
    ghost use Rattle.std.specs.Prelude.{◌≡◌};
    ghost use Rattle.wh_state.specs.Commit.{groups_due, is_kept_at};
    ghost use Rattle.wh_record.specs.View.{change_of};
    ghost use Rattle.wh_catalog.specs.Catalog.{objects_of};

    /// The table whose groups are to be set right behind a change: one that is kept, behind its
    /// version.
    pub(crate) fn groups_due(&self, change: &OutlinedChange) -> Option<u32>
        ensures { result ≡ groups_due (objects_of self.now) (change_of change.now) }
    {
        match change {
            ChangeIn::PushesVersion(version) if self.is_kept(version.id) => Some(version.id),
            _ => None,
        }
    }

    fn is_kept(&self, id: u32) -> bool
        ensures { result ≡ is_kept_at (objects_of self.now) id }
    {
        match self.dynamic(id) {
            Some(dynamic) => dynamic.kept().is_some(),
            None => false,
        }
    }
}

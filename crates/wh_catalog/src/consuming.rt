//! Offsets of streams.
ghost use Rattle.std.specs.Prelude.{◌≡◌, OnOk, OnErr, IfOk, IsErrOf};
ghost use Rattle.wh_state.specs.State.{at_id, changed_at};
ghost use Rattle.wh_state.specs.Commit.{OffsetApplies, offset_set};
ghost use Rattle.wh_catalog.specs.Object.{kept_objects, stored_objects, live_in};
ghost use Rattle.wh_catalog.specs.Names.{KeepsNames};
ghost use Rattle.wh_catalog.specs.Back.{object_put_back};
ghost use Rattle.wh_catalog.specs.Undo.{step_undone, IsSteady};

use crate::object::place_of;
use crate::undo::Step;
use crate::{StageFault, StoredKind, StoredObject};

/// Sets the offset of the stream of an id.
pub(crate) fn set_offset(
    objects: &mut Vec<StoredObject>,
    id: u32,
    offset: u64,
) -> Result<Step, StageFault>
    ensures applies { OnOk result (OffsetApplies
        (at_id (stored_objects objects.old.items) id) offset) }
    ensures changed { OnOk result (stored_objects objects.new.items
        ≡ changed_at (stored_objects objects.old.items) id (offset_set offset)) }
    ensures steady { IfOk result IsSteady }
    ensures back { IfOk result (λ step. step_undone step (kept_objects objects.new.items)
        ≡ kept_objects objects.old.items) }
    ensures not_applicable { IsErrOf result StageFault.NotApplicable
        → OffsetApplies (at_id (stored_objects objects.old.items) id) offset → ⊥ }
    ensures same { OnErr result (kept_objects objects.new.items
        ≡ kept_objects objects.old.items) }
    ensures live { live_in objects.new.items ≡ live_in objects.old.items }
    ensures names { KeepsNames objects.old.items objects.new.items }
{
    let Some(place) = place_of(objects, id) else {
        return Err(StageFault::NotApplicable);
    };
    let object = &mut objects[place];
    match object.set_offset(offset) {
        Ok(before) => Ok(Step::SetOffset { id, offset: before }),
        Err(fault) => Err(fault),
    }
}

/// Puts the offset of before back.
pub(crate) fn put_offset_back(objects: &mut Vec<StoredObject>, id: u32, offset: u64)
    ensures back { kept_objects objects.new.items
        ≡ changed_at (kept_objects objects.old.items) id (object_put_back offset) }
    ensures live { live_in objects.new.items ≡ live_in objects.old.items }
    ensures names { KeepsNames objects.old.items objects.new.items }
{
    let Some(place) = place_of(objects, id) else {
        return;
    };
    let object = &mut objects[place];
    object.put_offset_back(offset);
}

impl StoredObject {
    ghost use Rattle.std.specs.Prelude.{◌≡◌, Some, OnOk, OnErr, IfOk, IsErrOf};
    ghost use Rattle.wh_state.specs.Commit.{OffsetApplies, offset_set};
    ghost use Rattle.wh_catalog.specs.Undoable.{object_in};
    ghost use Rattle.wh_catalog.specs.Object.{kept_object};
    ghost use Rattle.wh_catalog.specs.Back.{object_put_back};

    // Sets the offset of a stream that lives, if it doesn't fall. The result is that of before.
    fn set_offset(&mut self, offset: u64) -> Result<u64, StageFault>
        ensures applies { OnOk result (OffsetApplies
            (Some (object_in (kept_object self.old))) offset) }
        ensures set { OnOk result (object_in (kept_object self.new)
            ≡ offset_set offset (object_in (kept_object self.old))) }
        ensures back { IfOk result (λ before. object_put_back before (kept_object self.new)
            ≡ kept_object self.old) }
        ensures not_applicable { IsErrOf result StageFault.NotApplicable
            → OffsetApplies (Some (object_in (kept_object self.old))) offset → ⊥ }
        ensures same { OnErr result (kept_object self.new ≡ kept_object self.old) }
        ensures live { self.new.is_live ≡ self.old.is_live }
        ensures name { self.new.name ≡ self.old.name }
    {
        if !self.is_live {
            return Err(StageFault::NotApplicable);
        }
        match &mut self.kind {
            StoredKind::Stream(stream) => {
                let before = stream.offset;
                if offset < before {
                    return Err(StageFault::NotApplicable);
                }
                stream.offset = offset;
                Ok(before)
            }
            StoredKind::Table(_) | StoredKind::Task(_) | StoredKind::Dynamic(_, _) => {
                Err(StageFault::NotApplicable)
            }
        }
    }

    fn put_offset_back(&mut self, offset: u64)
        ensures back { kept_object self.new ≡ object_put_back offset (kept_object self.old) }
        ensures live { self.new.is_live ≡ self.old.is_live }
        ensures name { self.new.name ≡ self.old.name }
    {
        match &mut self.kind {
            StoredKind::Stream(stream) => stream.offset = offset,
            StoredKind::Table(_) | StoredKind::Task(_) | StoredKind::Dynamic(_, _) => {}
        }
    }
}

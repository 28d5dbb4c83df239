//! Objects that are dropped, and that live again.
ghost use Rattle.std.specs.Prelude.{◌≡◌, ◌≤◌, ◌+◌, true, OnOk, OnErr, IfOk, IsErrOf};
ghost use Rattle.wh_value.specs.Limit.{bound};
ghost use Rattle.wh_value.specs.declared.limit.Limit.TheVariants as limits;
ghost use Rattle.wh_state.specs.State.{at_id, changed_at, dropped};
ghost use Rattle.wh_state.specs.Commit.{IsLiveObject};
ghost use Rattle.wh_catalog.specs.Object.{kept_objects, stored_objects, live_in};
ghost use Rattle.wh_catalog.specs.Names.{names_of, is_last, AreLast, KeepsNames};
ghost use Rattle.wh_catalog.specs.Back.{alive};
ghost use Rattle.wh_catalog.specs.Undo.{step_undone, IsSteady};

use crate::object::place_of;
use crate::undo::Step;
use crate::{StageFault, StoredObject};

/// Drops the object of an id, if it lives.
pub(crate) fn drop_object(objects: &mut Vec<StoredObject>, id: u32) -> Result<Step, StageFault>
    requires live { live_in objects.old.items ≤ bound limits.Objects }
    requires last { AreLast objects.old.items }
    ensures applies { OnOk result (IsLiveObject
        (at_id (stored_objects objects.old.items) id)) }
    ensures changed { OnOk result (stored_objects objects.new.items
        ≡ changed_at (stored_objects objects.old.items) id dropped) }
    ensures steady { IfOk result IsSteady }
    ensures back { IfOk result (λ step. step_undone step (kept_objects objects.new.items)
        ≡ kept_objects objects.old.items) }
    ensures not_applicable { IsErrOf result StageFault.NotApplicable
        → IsLiveObject (at_id (stored_objects objects.old.items) id) → ⊥ }
    ensures same { OnErr result (kept_objects objects.new.items
        ≡ kept_objects objects.old.items) }
    ensures live { live_in objects.new.items ≤ live_in objects.old.items }
    ensures names { KeepsNames objects.old.items objects.new.items }
{
    let Some(place) = place_of(objects, id) else {
        return Err(StageFault::NotApplicable);
    };
    let object = &mut objects[place];
    if !object.is_live {
        return Err(StageFault::NotApplicable);
    }
    object.is_live = false;
    Ok(Step::DroppedObject(id))
}

/// The object of an id, the last one of its name, lives again.
pub(crate) fn revive(objects: &mut Vec<StoredObject>, id: u32)
    requires { is_last id (names_of objects.old.items) ≡ true }
    ensures back { kept_objects objects.new.items
        ≡ changed_at (kept_objects objects.old.items) id alive }
    ensures live { live_in objects.new.items ≤ live_in objects.old.items + 1 }
    ensures names { KeepsNames objects.old.items objects.new.items }
{
    let Some(place) = place_of(objects, id) else {
        return;
    };
    let object = &mut objects[place];
    object.is_live = true;
}

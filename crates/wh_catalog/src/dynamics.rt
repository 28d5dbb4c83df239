//! New dynamic tables, and their states.
use crate::object::place_of;
use crate::undo::Step;
use crate::{Catalog, StageFault, StoredKind, StoredObject};
use std::alloc::AllocError;
use wh_dynamic::{Dynamic, DynamicState};
use wh_record::DynamicChange;
use wh_table::StoredTable;
use wh_value::Limit;

/// The refreshes of a dynamic table that failed in a row, and are counted, are no more.
const MOST_FAILED_REFRESHES: u32 = 5;

impl Catalog {
    ghost use Rattle.std.specs.Prelude.{◌≡◌, ◌++◌, ◌∷◌, [], OnOk, IfOk, IsErrOf};
    ghost use Rattle.wh_state.specs.Commit.{DynamicApplies, changed, CreatesDynamic};
    ghost use Rattle.wh_record.specs.View.{dynamic_change_of};
    ghost use Rattle.wh_catalog.specs.DynamicConditions.{is_formed, dynamic_applies};
    ghost use Rattle.wh_catalog.specs.Undoable.{object_in};
    ghost use Rattle.wh_catalog.specs.Object.{kept_object, filed_in_kind};
    ghost use Rattle.wh_catalog.specs.Catalog.{objects_of};

    /// The dynamic table of a change, without a version, if it applies.
    pub(crate) fn new_dynamic(
        &self,
        change: DynamicChange,
        stamp: u64,
    ) -> Result<StoredObject, StageFault>
        ensures applies { OnOk result (DynamicApplies (objects_of self.now)
            (dynamic_change_of change)) }
        ensures made { IfOk result (λ made. objects_of self.now ++ object_in (kept_object made) ∷ []
            ≡ changed stamp (objects_of self.now) (CreatesDynamic (dynamic_change_of change))) }
        ensures named { IfOk result (λ made. made.name ≡ change.name) }
        ensures nothing { IfOk result (λ made. filed_in_kind (kept_object made).kind ≡ []) }
        ensures not_applicable { IsErrOf result StageFault.NotApplicable
            → DynamicApplies (objects_of self.now) (dynamic_change_of change) → ⊥ }
    {
        let Ok(applies) = self.dynamic_applies(&change) else {
            return Err(StageFault::OutOfMemory);
        };
        if !applies {
            return Err(StageFault::NotApplicable);
        }
        let lag = change.lag;
        let is_incremental = change.is_incremental;
        let Ok(kept) = self.kept_for(is_incremental, &change.query) else {
            return Err(StageFault::OutOfMemory);
        };
        let Ok(dynamic) = Dynamic::new(self.alloc, lag, is_incremental, kept, change.query) else {
            return Err(StageFault::OutOfMemory);
        };
        let table = StoredTable::empty(self.alloc, change.columns, stamp);
        Ok(StoredObject {
            name: change.name,
            is_live: true,
            kind: StoredKind::Dynamic(dynamic, table),
        })
    }

    // Whether a new dynamic table applies.
    fn dynamic_applies(&self, change: &DynamicChange) -> Result<bool, AllocError>
        ensures { IfOk result (λ applies. applies
            ≡ dynamic_applies (objects_of self.now) (dynamic_change_of change.now)) }
    {
        if !self.is_formed(change) {
            return Ok(false);
        }
        let binds = self.binds(&change.query, &change.columns)?;
        Ok(binds)
    }

    // Whether all of a new dynamic table applies but its query.
    fn is_formed(&self, change: &DynamicChange) -> bool
        ensures { result ≡ is_formed (objects_of self.now) (dynamic_change_of change.now) }
    {
        self.is_new_object(change.id, &change.name)
            && is_lag(change.lag)
            && are_stored_columns(&change.columns)
    }
}

ghost use Rattle.std.specs.Prelude.{◌≡◌, OnOk, OnErr, IfOk, IsErrOf};
ghost use Rattle.wh_state.specs.State.{at_id, changed_at};
ghost use Rattle.wh_state.specs.Dynamic.{with_dynamic_state};
ghost use Rattle.wh_state.specs.Commit.{DynamicStateApplies, on_dynamic_stored};
ghost use Rattle.wh_dynamic.specs.View.{state_of};
ghost use Rattle.wh_catalog.specs.Object.{kept_objects, stored_objects, live_in};
ghost use Rattle.wh_catalog.specs.Names.{KeepsNames};
ghost use Rattle.wh_catalog.specs.Back.{on_dynamic_kept};
ghost use Rattle.wh_catalog.specs.Undo.{step_undone, IsSteady};
ghost use Rattle.wh_catalog.specs.DynamicConditions.{is_lag, takes_state};

use crate::creating::are_stored_columns;

/// Gives the dynamic table of an id another state, if it takes it.
pub(crate) fn set_dynamic(
    objects: &mut Vec<StoredObject>,
    id: u32,
    state: DynamicState,
) -> Result<Step, StageFault>
    ensures applies { OnOk result (DynamicStateApplies
        (at_id (stored_objects objects.old.items) id) (state_of state)) }
    ensures changed { OnOk result (stored_objects objects.new.items
        ≡ changed_at (stored_objects objects.old.items) id
        (on_dynamic_stored (with_dynamic_state (state_of state)))) }
    ensures steady { IfOk result IsSteady }
    ensures back { IfOk result (λ step. step_undone step (kept_objects objects.new.items)
        ≡ kept_objects objects.old.items) }
    ensures not_applicable { IsErrOf result StageFault.NotApplicable
        → DynamicStateApplies (at_id (stored_objects objects.old.items) id) (state_of state) → ⊥ }
    ensures same { OnErr result (kept_objects objects.new.items
        ≡ kept_objects objects.old.items) }
    ensures live { live_in objects.new.items ≡ live_in objects.old.items }
    ensures names { KeepsNames objects.old.items objects.new.items }
{
    let Some(place) = place_of(objects, id) else {
        return Err(StageFault::NotApplicable);
    };
    let object = &mut objects[place];
    match object.set_dynamic(state) {
        Ok(before) => Ok(Step::SetDynamic { id, state: before }),
        Err(fault) => Err(fault),
    }
}

/// Puts the state of before back.
pub(crate) fn put_dynamic_back(objects: &mut Vec<StoredObject>, id: u32, state: DynamicState)
    ensures back { kept_objects objects.new.items
        ≡ changed_at (kept_objects objects.old.items) id
        (on_dynamic_kept (with_dynamic_state (state_of state))) }
    ensures live { live_in objects.new.items ≡ live_in objects.old.items }
    ensures names { KeepsNames objects.old.items objects.new.items }
{
    let Some(place) = place_of(objects, id) else {
        return;
    };
    let object = &mut objects[place];
    object.put_dynamic_back(state);
}

impl StoredObject {
    ghost use Rattle.std.specs.Prelude.{◌≡◌, Some, OnOk, OnErr, IfOk, IsErrOf};
    ghost use Rattle.wh_state.specs.Dynamic.{with_dynamic_state};
    ghost use Rattle.wh_state.specs.Commit.{DynamicStateApplies, on_dynamic_stored};
    ghost use Rattle.wh_dynamic.specs.View.{state_of};
    ghost use Rattle.wh_catalog.specs.Undoable.{object_in};
    ghost use Rattle.wh_catalog.specs.Object.{kept_object};
    ghost use Rattle.wh_catalog.specs.Back.{on_dynamic_kept};

    // Gives a dynamic table that lives another state, if it takes it. The result is that of before.
    fn set_dynamic(&mut self, state: DynamicState) -> Result<DynamicState, StageFault>
        ensures applies { OnOk result (DynamicStateApplies
            (Some (object_in (kept_object self.old))) (state_of state)) }
        ensures set { OnOk result (object_in (kept_object self.new)
            ≡ on_dynamic_stored (with_dynamic_state (state_of state))
            (object_in (kept_object self.old))) }
        ensures back { IfOk result (λ before.
            on_dynamic_kept (with_dynamic_state (state_of before)) (kept_object self.new)
            ≡ kept_object self.old) }
        ensures not_applicable { IsErrOf result StageFault.NotApplicable
            → DynamicStateApplies (Some (object_in (kept_object self.old))) (state_of state) → ⊥ }
        ensures same { OnErr result (kept_object self.new ≡ kept_object self.old) }
        ensures live { self.new.is_live ≡ self.old.is_live }
        ensures name { self.new.name ≡ self.old.name }
    {
        if !self.is_live {
            return Err(StageFault::NotApplicable);
        }
        match &mut self.kind {
            StoredKind::Dynamic(dynamic, _) => {
                let before = dynamic.state();
                if !takes_state(before.moment, state) {
                    return Err(StageFault::NotApplicable);
                }
                dynamic.set(state);
                Ok(before)
            }
            StoredKind::Table(_) | StoredKind::Stream(_) | StoredKind::Task(_) => {
                Err(StageFault::NotApplicable)
            }
        }
    }

    fn put_dynamic_back(&mut self, state: DynamicState)
        ensures back { kept_object self.new
            ≡ on_dynamic_kept (with_dynamic_state (state_of state)) (kept_object self.old) }
        ensures live { self.new.is_live ≡ self.old.is_live }
        ensures name { self.new.name ≡ self.old.name }
    {
        match &mut self.kind {
            StoredKind::Dynamic(dynamic, _) => dynamic.set(state),
            StoredKind::Table(_) | StoredKind::Stream(_) | StoredKind::Task(_) => {}
        }
    }
}

// Whether a dynamic table that stands for a moment takes a state.
fn takes_state(moment: u64, state: DynamicState) -> bool
    ensures { result ≡ takes_state moment (state_of state) }
{
    is_lag(state.lag) && state.failures <= MOST_FAILED_REFRESHES && moment <= state.moment
}

// Whether a lag is DOWNSTREAM, or within its limits.
fn is_lag(lag: u32) -> bool
    ensures { result ≡ is_lag lag }
{
    let seconds = lag as u64;
    seconds == 0
        || (Limit::LeastTargetLag.bound() <= seconds && seconds <= Limit::MostTargetLag.bound())
}

//! Objects by their ids, in a list of them.
ghost use Rattle.std.specs.Prelude.{◌≡◌, ◌++◌, map, option_map, Contains, IfSome, OnOk, IfOk};
ghost use Rattle.std.specs.List.{AllByRecursion};
ghost use Rattle.std.specs.Option.{option_copied};
ghost use Rattle.wh_filed.specs.Filed.{AreAmong};
ghost use Rattle.wh_state.specs.State.{at_id};
ghost use Rattle.wh_state.specs.Objects as state;
ghost use Rattle.wh_state.specs.Stored.{table_meant};
ghost use Rattle.wh_moment.specs.Upstream.{dynamics_of};
ghost use Rattle.wh_dynamic.specs.View.{dynamic_of, dynamics_in};
ghost use Rattle.wh_table.specs.Table as tables;
ghost use Rattle.wh_table.specs.Table.{table_of};
ghost use Rattle.wh_catalog.specs.Object.{kept_objects};
ghost use Rattle.wh_catalog.specs.Catalog.{kept_of, stored_of, state_of, filed_of};
ghost use Rattle.wh_refresh.specs.Objects.{objects_in, stored_in, objects_at, filed_at_objects};
ghost use Rattle.wh_refresh.specs.Objects.{filed_at_id, with_made, stored_made, kept_made};
ghost use Rattle.wh_refresh.specs.Objects.{filed_made};

use std::alloc::{AllocError, Global};
use wh_catalog::{Catalog, StoredObject, StoredTable, watched_object};
use wh_dynamic::{Dynamic, Watched};
use wh_value::Text;

/// The objects of a catalog by their ids, and behind them one that is to be made.
pub fn all_objects<'a>(
    alloc: Global,
    catalog: &'a Catalog,
    made: Option<&'a StoredObject>,
) -> Result<Vec<&'a StoredObject>, AllocError>
    ensures objects { IfOk result (λ objects. objects_in objects.items
        ≡ (state_of catalog.now).objects ++ with_made made.entry) }
    ensures stored { IfOk result (λ objects. stored_in objects.items
        ≡ (stored_of catalog.now).objects ++ stored_made made.entry) }
    ensures kept { IfOk result (λ objects. kept_objects (objects_at objects.items)
        ≡ kept_of catalog.now ++ kept_made made.entry) }
    ensures among { IfOk result (λ objects. AreAmong (filed_at_objects objects.items)
        (filed_of catalog.now ++ filed_made made.entry)) }
{
    let mut objects = Vec::new(alloc);
    for object in catalog.objects() {
        objects.push(object)?;
    }
    add_made(&mut objects, made)?;
    Ok(objects)
}

fn add_made<'a>(
    objects: &mut Vec<&'a StoredObject>,
    made: Option<&'a StoredObject>,
) -> Result<(), AllocError>
    ensures objects { OnOk result (objects_in objects.new.items
        ≡ objects_in objects.old.items ++ with_made made.entry) }
    ensures stored { OnOk result (stored_in objects.new.items
        ≡ stored_in objects.old.items ++ stored_made made.entry) }
    ensures kept { OnOk result (kept_objects (objects_at objects.new.items)
        ≡ kept_objects (objects_at objects.old.items) ++ kept_made made.entry) }
    ensures filed { OnOk result (filed_at_objects objects.new.items
        ≡ filed_at_objects objects.old.items ++ filed_made made.entry) }
{
    let Some(object) = made else {
        return Ok(());
    };
    objects.push(object)?;
    Ok(())
}

/// The object of an id.
pub(crate) fn object_at<'a>(objects: &[&'a StoredObject], id: u32) -> Option<&'a StoredObject>
    ensures { result ≡ at_id objects.now id }
{
    if id == 0 {
        return None;
    }
    objects.get(id as usize - 1).copied()
}

/// The table of an id, or that of a dynamic table.
pub(crate) fn table_at<'a>(objects: &[&'a StoredObject], id: u32) -> Option<&'a StoredTable>
    ensures stored { option_map (λ t. table_of t.now) result
        ≡ state.table_at (stored_in objects.now) id }
    ensures meant { option_map (λ t. table_meant (table_of t.now)) result
        ≡ state.table_at (objects_in objects.now) id }
    ensures among { IfSome result (λ t.
        AllByRecursion (Contains (filed_at_objects objects.now)) (tables.filed_of t.now)) }
    ensures filed { IfSome result (λ t. tables.filed_of t.now ≡ filed_at_id objects.now id) }
{
    let object = object_at(objects, id)?;
    object.kind().table()
}

/// What the dynamic table of an id has beside its rows.
pub fn dynamic_at<'a>(objects: &[&'a StoredObject], id: u32) -> Option<&'a Dynamic>
    ensures { option_map (λ d. dynamic_of d.now) result
        ≡ state.dynamic_at (objects_in objects.now) id }
{
    let object = object_at(objects, id)?;
    object.kind().dynamic()
}

pub(crate) fn is_live_at(objects: &[&StoredObject], id: u32) -> bool
    ensures { result ≡ state.is_live_at (objects_in objects.now) id }
{
    match object_at(objects, id) {
        Some(object) => object.is_live(),
        None => false,
    }
}

/// The name of an object, empty where there is none.
pub fn name_at(alloc: Global, objects: &[&StoredObject], id: u32) -> Result<Text, AllocError>
    ensures { IfOk result (λ name. name ≡ state.name_at (objects_in objects.now) id) }
{
    match object_at(objects, id) {
        Some(object) => {
            let copy = object.name().copy(alloc)?;
            Ok(copy)
        }
        None => {
            let empty = Text::of(alloc, "")?;
            Ok(empty)
        }
    }
}

/// What a schedule looks at of each of them.
pub(crate) fn watched<'a>(
    alloc: Global,
    objects: &[&'a StoredObject],
) -> Result<Vec<Option<Watched<'a>>>, AllocError>
    ensures { IfOk result (λ all. dynamics_in all.items ≡ dynamics_of (objects_in objects.now)) }
{
    let mut all = Vec::new(alloc);
    for object in objects {
        all.push(watched_object(*object))?;
    }
    Ok(all)
}

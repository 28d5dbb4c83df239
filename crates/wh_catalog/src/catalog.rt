ghost use Rattle.std.specs.Prelude.{◌≡◌, ◌≤◌, ◌<◌, ℕ, List, length};
ghost use Rattle.wh_value.specs.Limit.{bound};
ghost use Rattle.wh_value.specs.declared.limit.Limit.TheVariants as limits;
ghost use Rattle.wh_catalog.specs.Names.{names_of, last_id, AreLast, AreLast-prop, id_at};
ghost use Rattle.wh_catalog.specs.Object.{live_in};

use crate::object::place_of;
use crate::{StoredKind, StoredObject, StoredStream};
use indexmap::IndexMap;
use std::alloc::{AllocError, Global};
use wh_dynamic::{Dynamic, Watched};
use wh_table::StoredTable;
use wh_task::Task;

/// The objects in order of creation, the greatest stamp so far, and that of the last commit.
/// Each name has the id of the last object that was made under it, whether that one lives or not.
#[derive(Debug, Drop)]
pub struct Catalog {
    pub(crate) alloc: Global,
    pub(crate) last: u64,
    pub(crate) committed: u64,
    pub(crate) objects: Vec<StoredObject>,
    pub(crate) names: IndexMap<Vec<u8>, u32>,
    ghost stamps: { last < bound limits.Stamp },
    ghost order: { committed ≤ last },
    ghost ids: { length objects.items ≤ bound limits.ObjectIds },
    ghost live: { live_in objects.items ≤ bound limits.Objects },
    ghost named: { (name : List ℕ) → id_at names name ≡ last_id name (names_of objects.items) },
    ghost unique: { AreLast objects.items } by { AreLast-prop objects.items },
}

impl Catalog {
    ghost use Rattle.std.specs.Prelude.{◌≡◌, ◌<◌, ◌≤◌, ◌∷◌, [], length, map, option_map};
    ghost use Rattle.std.specs.Prelude.{IfOk, IfSome};
    ghost use Rattle.wh_value.specs.Limit.{bound};
    ghost use Rattle.wh_value.specs.declared.limit.Limit.TheVariants as limits;
    ghost use Rattle.wh_state.specs.State.{first_state, id_of, live_count};
    ghost use Rattle.wh_state.specs.Stored.{first_stored};
    ghost use Rattle.wh_state.specs.Orderly.{IsOrderlyStored};
    ghost use Rattle.wh_catalog.specs.Undoable.{object_in};
    ghost use Rattle.wh_filed.specs.Filed.{AreAmong};
    ghost use Rattle.wh_table.specs.Table as tables;
    ghost use Rattle.wh_table.specs.Table.{table_of};
    ghost use Rattle.wh_task.specs.View.{task_of, tasks_of};
    ghost use Rattle.wh_dynamic.specs.View.{dynamic_of, dynamics_in};
    ghost use Rattle.wh_moment.specs.Upstream.{dynamics_of};
    ghost use Rattle.wh_catalog.specs.Object.{kept_object, kept_objects, filed_of_objects};
    ghost use Rattle.wh_catalog.specs.Names.{names_of, is_last, last_id};
    ghost use Rattle.wh_state.specs.Objects.{table_at, stream_at, task_at, dynamic_at};
    ghost use Rattle.wh_state.specs.Objects.{live_tasks};
    ghost use Rattle.wh_catalog.specs.Catalog.{kept_of, stored_of, state_of, filed_of, filed_under};
    ghost use Rattle.wh_catalog.specs.Stream.{stream_of};
    ghost use Rattle.wh_state.specs.State.{at_id};

    /// No object, and no stamp. Takes no memory.
    pub fn new(alloc: Global) -> Catalog
        ensures stored { stored_of result ≡ first_stored }
        ensures state { state_of result ≡ first_state }
        ensures filed { filed_of result ≡ [] }
    {
        Catalog {
            alloc,
            last: 0,
            committed: 0,
            objects: Vec::new(alloc),
            names: IndexMap::new(alloc),
        }
    }

    /// The greatest stamp so far. What stands in a catalog's tables is orderly.
    pub fn last(&self) -> u64
        ensures last { result ≡ (state_of self.now).last }
        ensures bounded { result < bound limits.Stamp }
        ensures committed { (stored_of self.now).last ≤ result }
        ensures orderly { IsOrderlyStored (stored_of self.now) }
    {
        self.last
    }

    /// Moves the last stamp on, and nothing else.
    pub fn pass(&mut self, stamp: u64)
        requires later { (stored_of self.old).last ≤ stamp }
        requires within { stamp < bound limits.Stamp }
        ensures state { state_of self.new ≡ record (state_of self.old) { last = stamp } }
        ensures stored { stored_of self.new ≡ stored_of self.old }
        ensures filed { filed_of self.new ≡ filed_of self.old }
    {
        self.last = stamp;
    }

    /// The id of the live object of that name.
    pub fn find(&self, name: &[u8]) -> Option<u32>
        ensures { result ≡ id_of name.now (stored_of self.now).objects }
    {
        // Of the objects of a name only the last one can live.
        let id = self.last_of_name(name)?;
        let object = &self.objects[id as usize - 1];
        object.is_live.then_some(id)
    }

    /// Whether the object of an id is the last one of its name.
    pub(crate) fn is_last(&self, id: u32) -> bool
        ensures { result ≡ is_last id (names_of self.now.objects.items) }
    {
        let Some(place) = place_of(&self.objects, id) else {
            return false;
        };
        let object = &self.objects[place];
        self.last_of_name(object.name.as_bytes()) == Some(id)
    }

    // The id of the last object of that name, whether that one lives or not.
    fn last_of_name(&self, name: &[u8]) -> Option<u32>
        ensures { result ≡ last_id name.now (names_of self.now.objects.items) }
    {
        self.names.get(name).copied()
    }

    /// The objects, each at the place before its id.
    pub fn objects(&self) -> &[StoredObject]
        ensures objects { map object_in (map kept_object result.now)
            ≡ (stored_of self.now).objects }
        ensures kept { kept_objects result.now ≡ kept_of self.now }
        ensures filed { filed_of_objects result.now ≡ filed_of self.now }
        ensures bounded { length result.now ≤ bound limits.ObjectIds }
    {
        self.objects.as_slice()
    }

    /// How many objects there are.
    pub fn object_count(&self) -> u64
        ensures count { result ≡ length (stored_of self.now).objects }
        ensures bounded { result ≤ bound limits.ObjectIds }
    {
        self.objects.len() as u64
    }

    /// How many of them live.
    pub fn live_count(&self) -> u64
        ensures count { result ≡ live_count (stored_of self.now).objects }
        ensures bounded { result ≤ bound limits.Objects }
    {
        count_live(&self.objects)
    }

    /// The object of an id.
    pub fn object(&self, id: u32) -> Option<&StoredObject>
        ensures object { option_map (λ o. object_in (kept_object o.now)) result
            ≡ at_id (stored_of self.now).objects id }
        ensures kept { option_map (λ o. kept_object o.now) result ≡ at_id (kept_of self.now) id }
        ensures among { IfSome result (λ o.
            AreAmong (filed_of_objects (o.now ∷ [])) (filed_of self.now)) }
    {
        let place = place_of(&self.objects, id)?;
        let object = &self.objects[place];
        Some(object)
    }

    /// The table of an id, or that of a dynamic table. None where the object is of another kind.
    pub fn table(&self, id: u32) -> Option<&StoredTable>
        ensures table { option_map (λ t. table_of t.now) result
            ≡ table_at (stored_of self.now).objects id }
        ensures filed { IfSome result (λ t. tables.filed_of t.now ≡ filed_under self.now id) }
        ensures among { IfSome result (λ t. AreAmong (tables.filed_of t.now) (filed_of self.now)) }
    {
        let object = self.object(id)?;
        object.table()
    }

    /// The stream of an id. None where the object is no stream.
    pub fn stream(&self, id: u32) -> Option<&StoredStream>
        ensures { option_map (λ s. stream_of s.now) result
            ≡ stream_at (stored_of self.now).objects id }
    {
        let object = self.object(id)?;
        object.stream()
    }

    /// The task of an id. None where the object is no task.
    pub fn task(&self, id: u32) -> Option<&Task>
        ensures { option_map (λ t. task_of t.now) result
            ≡ task_at (stored_of self.now).objects id }
    {
        let object = self.object(id)?;
        object.task()
    }

    /// What the dynamic table of an id has beside its rows. None where the object is none.
    pub fn dynamic(&self, id: u32) -> Option<&Dynamic>
        ensures { option_map (λ d. dynamic_of d.now) result
            ≡ dynamic_at (stored_of self.now).objects id }
    {
        let object = self.object(id)?;
        object.dynamic()
    }

    /// What a schedule looks at of the dynamic tables, dropped ones too, by their ids from 1; None
    /// at an id that has none.
    pub fn watched(&self, alloc: Global) -> Result<Vec<Option<Watched<'_>>>, AllocError>
        ensures watched { IfOk result (λ all. dynamics_in all.items
            ≡ dynamics_of (stored_of self.now).objects) }
        ensures bounded { IfOk result (λ all. length all.items ≤ bound limits.ObjectIds) }
    {
        watched(alloc, &self.objects)
    }

    /// The live tasks by their ids from 1, None at an id that has none.
    pub fn live_tasks(&self, alloc: Global) -> Result<Vec<Option<&Task>>, AllocError>
        ensures tasks { IfOk result (λ tasks. tasks_of tasks.items
            ≡ live_tasks (stored_of self.now).objects) }
        ensures bounded { IfOk result (λ tasks.
            length tasks.items ≤ bound limits.ObjectIds) }
    {
        live_tasks(alloc, &self.objects)
    }
}

ghost use Rattle.std.specs.Prelude.{IfOk};
ghost use Rattle.wh_state.specs.Objects.{live_tasks};
ghost use Rattle.wh_task.specs.View.{tasks_of};
ghost use Rattle.wh_catalog.specs.Object.{stored_objects};

fn count_live(objects: &[StoredObject]) -> u64
    ensures { result ≡ live_in objects.now }
{
    objects.iter().filter(|object| object.is_live()).count() as u64
}

fn live_tasks(alloc: Global, objects: &[StoredObject]) -> Result<Vec<Option<&Task>>, AllocError>
    ensures { IfOk result (λ tasks. tasks_of tasks.items
        ≡ live_tasks (stored_objects objects.now)) }
{
    let mut tasks = Vec::new(alloc);
    for object in objects {
        tasks.push(object.live_task())?;
    }
    Ok(tasks)
}

ghost use Rattle.wh_moment.specs.Upstream.{dynamics_of, watched_object};
ghost use Rattle.wh_dynamic.specs.View.{watched_of, dynamics_in};
ghost use Rattle.std.specs.Prelude.{option_map};
ghost use Rattle.wh_catalog.specs.Undoable.{object_in};
ghost use Rattle.wh_catalog.specs.Object.{kept_object};

fn watched(alloc: Global, objects: &[StoredObject]) -> Result<Vec<Option<Watched<'_>>>, AllocError>
    ensures { IfOk result (λ all. dynamics_in all.items
        ≡ dynamics_of (stored_objects objects.now)) }
{
    let mut all = Vec::with_capacity(alloc, objects.len())?;
    for object in objects {
        all.push(watched_object(object))?;
    }
    Ok(all)
}

/// What a schedule looks at of a dynamic table; None of another object.
pub fn watched_object(object: &StoredObject) -> Option<Watched<'_>>
    ensures { option_map watched_of result ≡ watched_object (object_in (kept_object object.now)) }
{
    match &object.kind {
        StoredKind::Dynamic(dynamic, table) => Some(Watched {
            is_live: object.is_live,
            created: table.created(),
            dynamic,
        }),
        StoredKind::Table(_) | StoredKind::Stream(_) | StoredKind::Task(_) => None,
    }
}

use crate::StoredStream;
use wh_dynamic::Dynamic;
use wh_table::StoredTable;
use wh_task::Task;
use wh_value::{Column, Text};

/// An object of the warehouse. A dropped one stays, with the name that it had.
#[derive(Debug, Drop)]
pub struct StoredObject {
    pub(crate) name: Text,
    pub(crate) is_live: bool,
    pub(crate) kind: StoredKind,
}

/// What an object is.
#[derive(Debug, Drop)]
pub enum StoredKind {
    Table(StoredTable),
    Stream(StoredStream),
    Task(Task),
    /// Its rows are those of the table.
    Dynamic(Dynamic, StoredTable),
}

impl StoredObject {
    ghost use Rattle.std.specs.Prelude.{◌≡◌, ◌∷◌, [], option_map, IfSome};
    ghost use Rattle.wh_table.specs.Table.{table_of, filed_of};
    ghost use Rattle.wh_task.specs.View.{live_of};
    ghost use Rattle.wh_state.specs.State.{table_in, stream_in, task_in, dynamic_in};
    ghost use Rattle.wh_dynamic.specs.View.{dynamic_of, slots_in};
    ghost use Rattle.wh_state.specs.Objects.{live_task};
    ghost use Rattle.wh_state.specs.State.{DynamicKind, new_object};
    ghost use Rattle.wh_table.specs.Table.{kept_table};
    ghost use Rattle.wh_catalog.specs.Undoable.{object_in};
    ghost use Rattle.wh_catalog.specs.Stream.{stream_of};
    ghost use Rattle.wh_catalog.specs.Object.{kept_kind, kept_object, filed_in_kind};
    ghost use Rattle.wh_catalog.specs.Object.{filed_of_objects};

    /// A dynamic table that lives.
    pub fn dynamic_table(name: Text, dynamic: Dynamic, table: StoredTable) -> StoredObject
        ensures object { kept_object result
            ≡ new_object name (DynamicKind (dynamic_of dynamic)
            (record { table = kept_table table; slots = slots_in dynamic })) }
        ensures filed { filed_of_objects (result ∷ []) ≡ filed_of table }
    {
        StoredObject {
            name,
            is_live: true,
            kind: StoredKind::Dynamic(dynamic, table),
        }
    }

    /// The name that it has, or had.
    pub fn name(&self) -> &Text
        ensures { result.now ≡ (kept_object self.now).name }
    {
        &self.name
    }

    pub fn is_live(&self) -> bool
        ensures { result ≡ (kept_object self.now).is_live }
    {
        self.is_live
    }

    pub fn kind(&self) -> &StoredKind
        ensures { kept_kind result.now ≡ (kept_object self.now).kind }
    {
        &self.kind
    }

    pub(crate) fn table(&self) -> Option<&StoredTable>
        ensures table { option_map (λ t. table_of t.now) result
            ≡ table_in (object_in (kept_object self.now)).kind }
        ensures filed { IfSome result (λ t. filed_of t.now
            ≡ filed_in_kind (kept_object self.now).kind) }
    {
        self.kind.table()
    }

    pub(crate) fn stream(&self) -> Option<&StoredStream>
        ensures { option_map (λ s. stream_of s.now) result
            ≡ stream_in (object_in (kept_object self.now)).kind }
    {
        self.kind.stream()
    }

    pub(crate) fn task(&self) -> Option<&Task>
        ensures { live_of result ≡ task_in (object_in (kept_object self.now)).kind }
    {
        self.kind.task()
    }

    pub(crate) fn dynamic(&self) -> Option<&Dynamic>
        ensures { option_map (λ d. dynamic_of d.now) result
            ≡ dynamic_in (object_in (kept_object self.now)).kind }
    {
        self.kind.dynamic()
    }

    /// The task that it is, if it lives and is one.
    pub(crate) fn live_task(&self) -> Option<&Task>
        ensures { live_of result ≡ live_task (object_in (kept_object self.now)) }
    {
        if !self.is_live {
            return None;
        }
        self.kind.task()
    }
}

impl StoredKind {
    ghost use Rattle.std.specs.Prelude.{◌≡◌, map, option_map, IfSome};
    ghost use Rattle.wh_value.specs.View.{column_of};
    ghost use Rattle.wh_state.specs.State.{table_in, stream_in, task_in, dynamic_in, columns_in};
    ghost use Rattle.wh_table.specs.Table.{table_of, filed_of};
    ghost use Rattle.wh_task.specs.View.{live_of};
    ghost use Rattle.wh_dynamic.specs.View.{dynamic_of};
    ghost use Rattle.wh_catalog.specs.Stream.{stream_of};
    ghost use Rattle.wh_catalog.specs.Object.{kept_kind, stored_kind, filed_in_kind};

    /// The table that it is or has, if it is a table or a dynamic table.
    pub fn table(&self) -> Option<&StoredTable>
        ensures table { option_map (λ t. table_of t.now) result ≡ table_in (stored_kind self.now) }
        ensures filed { IfSome result (λ t. filed_of t.now ≡ filed_in_kind (kept_kind self.now)) }
    {
        match self {
            StoredKind::Table(table) => Some(table),
            StoredKind::Dynamic(_, table) => Some(table),
            StoredKind::Stream(_) | StoredKind::Task(_) => None,
        }
    }

    /// The stream that it is, if it is one.
    pub fn stream(&self) -> Option<&StoredStream>
        ensures { option_map (λ s. stream_of s.now) result ≡ stream_in (stored_kind self.now) }
    {
        match self {
            StoredKind::Table(_) | StoredKind::Task(_) | StoredKind::Dynamic(_, _) => None,
            StoredKind::Stream(stream) => Some(stream),
        }
    }

    /// The task that it is, if it is one.
    pub fn task(&self) -> Option<&Task>
        ensures { live_of result ≡ task_in (stored_kind self.now) }
    {
        match self {
            StoredKind::Table(_) | StoredKind::Stream(_) | StoredKind::Dynamic(_, _) => None,
            StoredKind::Task(task) => Some(task),
        }
    }

    /// What a dynamic table has beside its rows, if it is one.
    pub fn dynamic(&self) -> Option<&Dynamic>
        ensures { option_map (λ d. dynamic_of d.now) result ≡ dynamic_in (stored_kind self.now) }
    {
        match self {
            StoredKind::Table(_) | StoredKind::Stream(_) | StoredKind::Task(_) => None,
            StoredKind::Dynamic(dynamic, _) => Some(dynamic),
        }
    }

    /// Its columns; a task has none.
    pub fn columns(&self) -> &[Column]
        ensures { map column_of result.now ≡ columns_in (stored_kind self.now) }
    {
        match self {
            StoredKind::Table(table) => table.columns(),
            StoredKind::Dynamic(_, table) => table.columns(),
            StoredKind::Stream(stream) => stream.columns(),
            StoredKind::Task(_) => &[],
        }
    }
}

ghost use Rattle.std.specs.Prelude.{◌≡◌, ◌<◌, ◌⊎◌, length, IfSome, IfNone};
ghost use Rattle.wh_catalog.specs.Object.{IsPlaceOf};

/// Where the object of an id stands, if there is one.
pub(crate) fn place_of(objects: &Vec<StoredObject>, id: u32) -> Option<usize>
    ensures found { IfSome result (IsPlaceOf id objects.now.items) }
    ensures none { IfNone result ((id ≡ 0) ⊎ (length objects.now.items < id)) }
{
    let place = id as usize;
    if place == 0 || objects.len() < place {
        return None;
    }
    Some(place - 1)
}

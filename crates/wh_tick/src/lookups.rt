//! The catalog's objects, as the machine's state has them.
ghost use Rattle.std.specs.Prelude.{◌≡◌, ◌<◌, ◌^◌, length, option_map, IfOk};
ghost use Rattle.wh_state.specs.State.{id_of};
ghost use Rattle.wh_state.specs.Objects.{stream_at, task_at, live_tasks};
ghost use Rattle.wh_task.specs.View.{live_of, tasks_of};
ghost use Rattle.wh_catalog.specs.Catalog.{state_of};
ghost use Rattle.wh_catalog.specs.Stream.{stream_of};

use std::alloc::{AllocError, Global};
use wh_catalog::{Catalog, StoredStream};
use wh_task::Task;
use wh_value::Text;

/// The id of the live object of a name.
pub(crate) fn id_of(catalog: &Catalog, name: &Text) -> Option<u32>
    ensures { result ≡ id_of name.now (state_of catalog.now).objects }
{
    catalog.find(name.as_bytes())
}

/// The stream of an id.
pub(crate) fn stream_at(catalog: &Catalog, id: u32) -> Option<&StoredStream>
    ensures { option_map (λ s. stream_of s.now) result
        ≡ stream_at (state_of catalog.now).objects id }
{
    catalog.stream(id)
}

/// The task of an id.
pub(crate) fn task_at(catalog: &Catalog, id: u32) -> Option<&Task>
    ensures { live_of result ≡ task_at (state_of catalog.now).objects id }
{
    catalog.task(id)
}

/// The live tasks by their ids from 1.
pub(crate) fn live_tasks(alloc: Global, catalog: &Catalog) -> Result<Vec<Option<&Task>>, AllocError>
    ensures tasks { IfOk result (λ tasks. tasks_of tasks.items
        ≡ live_tasks (state_of catalog.now).objects) }
    ensures bounded { IfOk result (λ tasks. length tasks.items < 2 ^ 32) }
{
    catalog.live_tasks(alloc)
}

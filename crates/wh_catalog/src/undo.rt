ghost use Rattle.std.specs.Prelude.{◌≤◌, ◌<◌};
ghost use Rattle.wh_value.specs.Limit.{bound};
ghost use Rattle.wh_value.specs.declared.limit.Limit.TheVariants as limits;

use wh_dynamic::DynamicState;
use wh_group::Before;
use wh_task::{TaskRun, TaskState};

/// A version that was pushed to the table of an id, whose next row was that one.
#[derive(Debug, Drop)]
pub(crate) struct Pushed {
    pub(crate) id: u32,
    pub(crate) next_row: u64,
    ghost bounded: { next_row ≤ bound limits.RowNumber },
}

/// What was done, with what is needed to take it back.
#[derive(Debug, Drop)]
pub(crate) enum Step {
    MadeObject,
    /// By its id.
    DroppedObject(u32),
    PushedVersion(Pushed),
    /// That of a stream, by its id; the offset is that of before.
    SetOffset { id: u32, offset: u64 },
    /// That of a task, by its id, with the one of before.
    SetTask { id: u32, state: TaskState },
    /// That of a root, by its id, with the one of before.
    SetRun { root: u32, run: Vec<TaskRun> },
    /// That of a dynamic table, by its id, with the one of before.
    SetDynamic { id: u32, state: DynamicState },
    /// Those of a dynamic table, by its id, with what stood in their slots before.
    SetGroups { id: u32, was: Before },
}

/// What leads back from a commit that was staged.
#[derive(Debug, Drop)]
pub struct Undo {
    pub(crate) last: u64,
    pub(crate) committed: u64,
    pub(crate) steps: Vec<Step>,
    ghost stamps: { last < bound limits.Stamp },
    ghost order: { committed ≤ last },
}

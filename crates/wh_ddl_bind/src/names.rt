ghost use Rattle.std.specs.Prelude.{◌≡◌, map};
ghost use Rattle.wh_ddl_naming.specs.Objects as naming;
ghost use Rattle.wh_ddl_bind.specs.View.{root_in};

use wh_naming::Named;

/// The root of a task's graph, by their ids.
#[derive(Clone, Copy, Debug)]
pub struct TaskRoot {
    pub task: u32,
    pub root: u32,
}

/// What a statement may name.
#[derive(Clone, Copy, Debug)]
pub struct Names<'a> {
    /// The live objects.
    pub objects: &'a [Named<'a>],
    /// The roots of tasks. A task that isn't listed is a root.
    pub roots: &'a [TaskRoot],
}

/// The root of a task's graph.
pub(crate) fn root_of(roots: &[TaskRoot], task: u32) -> u32
    ensures { result ≡ naming.root_of (map root_in roots.now) task }
{
    for listed in roots {
        if listed.task == task {
            return listed.root;
        }
    }
    task
}

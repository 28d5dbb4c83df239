//! The roots of tasks, where a statement asks for them.
ghost use Rattle.std.specs.Prelude.{◌≡◌, ◌<◌, ◌^◌, ◌++◌, List, map, length, IfOk, OnOk};
ghost use Rattle.wh_naming.specs.Scope.{Named};
ghost use Rattle.wh_ddl_naming.specs.Statements.{bound};
ghost use Rattle.wh_ddl_bind.specs.View.{root_in};
ghost use Rattle.wh_task.specs.View.{tasks_of, live_of};
ghost use Rattle.wh_machine.specs.Names as machine;
ghost use Rattle.wh_catalog.specs.Catalog.{state_of};
ghost use Rattle.wh_decide.specs.Names as names;
ghost use Rattle.wh_decide.specs.Names.{over, roots_told};

use std::alloc::{AllocError, Global};
use wh_ast::Statement;
use wh_catalog::Catalog;
use wh_ddl_bind::TaskRoot;
use wh_task::Task;

// Those of all live tasks, where a statement asks for one.
pub(crate) fn task_roots(
    alloc: Global,
    catalog: &Catalog,
    statement: &Statement,
) -> Result<Vec<TaskRoot>, AllocError>
    ensures { IfOk result (λ roots. (objects : List Named)
        → bound (over objects (map root_in roots.items)) statement.now
        ≡ bound (over objects (machine.roots_from 1 (state_of catalog.now).objects))
        statement.now) }
{
    if !asks_roots(statement) {
        return Ok(Vec::new(alloc));
    }
    let tasks = catalog.live_tasks(alloc)?;
    roots_in(alloc, &tasks)
}

fn asks_roots(statement: &Statement) -> bool
    ensures { result ≡ names.asks_roots statement.now }
{
    matches!(
        statement,
        Statement::CreateTask(_) | Statement::ExecuteTask(_)
    )
}

// Those of tasks by their ids from 1.
fn roots_in(alloc: Global, tasks: &[Option<&Task>]) -> Result<Vec<TaskRoot>, AllocError>
    requires { length tasks.now < 2 ^ 32 }
    ensures { IfOk result (λ roots. map root_in roots.items ≡ roots_told 1 (tasks_of tasks.now)) }
{
    let mut roots = Vec::new(alloc);
    let mut id = 0;
    for task in tasks {
        id += 1;
        add_root(&mut roots, id, *task)?;
    }
    Ok(roots)
}

fn add_root(roots: &mut Vec<TaskRoot>, id: u32, task: Option<&Task>) -> Result<(), AllocError>
    ensures { OnOk result (map root_in roots.new.items
        ≡ map root_in roots.old.items ++ machine.root_told id (live_of task.entry)) }
{
    if let Some(task) = task {
        let root = task.root;
        roots.push(TaskRoot { task: id, root })?;
    }
    Ok(())
}

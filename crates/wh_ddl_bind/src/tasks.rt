ghost use Rattle.std.specs.Prelude.{◌≡◌, IfOk};
ghost use Rattle.wh_naming.specs.Scope.{TaskObject};
ghost use Rattle.wh_ddl_naming.specs.Meant.{within};
ghost use Rattle.wh_ddl_naming.specs.Objects as objects;
ghost use Rattle.wh_ddl_naming.specs.Statements as bound;
ghost use Rattle.wh_ddl_naming.specs.Tasks as naming;
ghost use Rattle.wh_ddl_bind.specs.View.{names_of, new_task_of, predecessors_in};
ghost use Rattle.wh_ddl_bind.specs.Binds.{Binds};

use crate::names::root_of;
use crate::objects::{Found, id_of, known, object, taken_name, unknown};
use crate::tested::tested;
use crate::{Bound, Names, NewTask};
use sqlite_items::Boxed;
use std::alloc::{AllocError, Global};
use wh_ast::{CreateTask, Dml, When};
use wh_bind::{BindFault, find};
use wh_copy::{copy_condition, copy_dml};
use wh_expr_bind::Findings;
use wh_naming::{Named, ObjectKind};
use wh_value::Text;

/// ALTER TASK .. RESUME.
pub(crate) fn resume_task(alloc: Global, names: &Names<'_>, name: &Text) -> Result<Bound, BindFault>
    ensures { Binds result (within bound.ResumeTask
        (objects.object_of TaskObject (names_of names.now) name.now)) }
{
    Ok(Bound::ResumeTask(object(alloc, names, ObjectKind::Task, name)?))
}

/// ALTER TASK .. SUSPEND.
pub(crate) fn suspend_task(
    alloc: Global,
    names: &Names<'_>,
    name: &Text,
) -> Result<Bound, BindFault>
    ensures { Binds result (within bound.SuspendTask
        (objects.object_of TaskObject (names_of names.now) name.now)) }
{
    Ok(Bound::SuspendTask(object(alloc, names, ObjectKind::Task, name)?))
}

/// DROP TASK.
pub(crate) fn drop_task(alloc: Global, names: &Names<'_>, name: &Text) -> Result<Bound, BindFault>
    ensures { Binds result (within bound.DropTask
        (objects.object_of TaskObject (names_of names.now) name.now)) }
{
    Ok(Bound::DropTask(object(alloc, names, ObjectKind::Task, name)?))
}

/// CREATE TASK.
pub(crate) fn create_task(
    alloc: Global,
    names: &Names<'_>,
    task: &CreateTask,
) -> Result<Bound, BindFault>
    ensures { Binds result
        (within bound.CreateTask (naming.bound_task (names_of names.now) task.now)) }
{
    let root = first_root(names, task.after.as_slice());
    let after = all_predecessors(alloc, names, root, task.after.as_slice())?;
    let taken = taken_name(alloc, names, &task.name)?;
    tested(taken, after.findings)?;
    Ok(Bound::CreateTask(new_task(alloc, task, after.ids)?))
}

// The root of the graph of the first name, 0 where there is none.
fn first_root(names: &Names<'_>, after: &[Text]) -> u32
    ensures { result ≡ naming.first_root (names_of names.now) after.now }
{
    match after {
        [name, ..] => root_at(names, find(names.objects, name)),
        [] => 0,
    }
}

ghost use Rattle.std.specs.Prelude.{option_map};
ghost use Rattle.wh_naming.specs.View.{named_of};

fn root_at(names: &Names<'_>, object: Option<Named<'_>>) -> u32
    ensures { result ≡ naming.root_at (names_of names.now) (option_map named_of object.entry) }
{
    match object {
        Some(object) => root_of(names.roots, object.id),
        None => 0,
    }
}

/// The ids of a task's predecessors, and what is found wrong with their names.
#[derive(Drop)]
struct Predecessors {
    ids: Vec<u32>,
    findings: Findings,
}

fn all_predecessors(
    alloc: Global,
    names: &Names<'_>,
    root: u32,
    after: &[Text],
) -> Result<Predecessors, AllocError>
    ensures { IfOk result (λ p. predecessors_in p
        ≡ naming.predecessors (names_of names.now) root after.now) }
{
    let mut ids = Vec::new(alloc);
    let mut findings = Findings::nothing();
    for name in after {
        let found = predecessor(alloc, names, root, name)?;
        ids.push(found.id)?;
        findings = findings.followed(found.findings);
    }
    Ok(Predecessors { ids, findings })
}

ghost use Rattle.wh_ddl_bind.specs.View.{found_in};

fn predecessor(
    alloc: Global,
    names: &Names<'_>,
    root: u32,
    name: &Text,
) -> Result<Found, AllocError>
    ensures { IfOk result (λ f. found_in f
        ≡ naming.predecessor (names_of names.now) root name.now) }
{
    match find(names.objects, name) {
        Some(object) => known(alloc, name, object.id, is_task_of(names, root, object)),
        None => unknown(alloc, name),
    }
}

fn is_task_of(names: &Names<'_>, root: u32, object: Named<'_>) -> bool
    ensures { result
        ≡ objects.is_task_of (names_of names.now).roots root (named_of object.entry) }
{
    is_task(object.kind) && root_of(names.roots, object.id) == root
}

ghost use Rattle.wh_naming.specs.View.{kind_of};

fn is_task(kind: ObjectKind) -> bool
    ensures { result ≡ objects.is_same_kind (kind_of kind) TaskObject }
{
    match kind {
        ObjectKind::Task => true,
        ObjectKind::Table | ObjectKind::Stream | ObjectKind::DynamicTable => false,
    }
}

/// EXECUTE TASK.
pub(crate) fn execute_task(
    alloc: Global,
    names: &Names<'_>,
    name: &Text,
) -> Result<Bound, BindFault>
    ensures { Binds result
        (within bound.ExecuteTask (naming.root_task (names_of names.now) name.now)) }
{
    Ok(Bound::ExecuteTask(root_task(alloc, names, name)?))
}

ghost use Rattle.wh_ddl_naming.specs.Meant.{first_failing};
ghost use Rattle.wh_ddl_bind.specs.Binds.{Answers};

fn root_task(alloc: Global, names: &Names<'_>, name: &Text) -> Result<u32, BindFault>
    ensures answer { Answers result
        (first_failing (naming.root_task (names_of names.now) name.now)) }
    ensures value { IfOk result (λ id. id
        ≡ (naming.root_task (names_of names.now) name.now).value) }
{
    match find(names.objects, name) {
        Some(object) => {
            let is_root = is_task_of(names, object.id, object);
            id_of(known(alloc, name, object.id, is_root)?)
        }
        None => id_of(unknown(alloc, name)?),
    }
}

fn new_task(alloc: Global, task: &CreateTask, after: Vec<u32>) -> Result<Boxed<NewTask>, AllocError>
    ensures { IfOk result (λ t. new_task_of t ≡ naming.new_task task.now after.items) }
{
    let name = task.name.copy(alloc)?;
    let body_text = task.body_text.copy(alloc)?;
    let deeds = copied_deeds(alloc, task)?;
    Boxed::new(
        alloc,
        NewTask {
            name,
            minutes: task.minutes,
            after,
            when: deeds.when,
            body: deeds.body,
            body_text,
        },
    )
}

/// What a task does, and when.
#[derive(Drop)]
struct Deeds {
    when: Option<Boxed<When>>,
    body: Boxed<Dml>,
}

fn copied_deeds(alloc: Global, task: &CreateTask) -> Result<Deeds, AllocError>
    ensures when { IfOk result (λ deeds. deeds.when ≡ task.now.when) }
    ensures body { IfOk result (λ deeds. deeds.body ≡ task.now.body) }
{
    let when = copied_when(alloc, &task.when)?;
    let body = copied_body(alloc, &task.body)?;
    Ok(Deeds { when, body })
}

fn copied_body(alloc: Global, body: &Dml) -> Result<Boxed<Dml>, AllocError>
    ensures { IfOk result (λ copy. copy ≡ body.now) }
{
    Boxed::new(alloc, copy_dml(alloc, body)?)
}

fn copied_when(alloc: Global, when: &Option<When>) -> Result<Option<Boxed<When>>, AllocError>
    ensures { IfOk result (λ copy. copy ≡ when.now) }
{
    match when {
        Some(when) => Ok(Some(copied_condition(alloc, when)?)),
        None => Ok(None),
    }
}

fn copied_condition(alloc: Global, when: &When) -> Result<Boxed<When>, AllocError>
    ensures { IfOk result (λ copy. copy ≡ when.now) }
{
    let text = when.text.copy(alloc)?;
    let condition = copy_condition(alloc, &when.condition)?;
    Boxed::new(alloc, When { condition, text })
}

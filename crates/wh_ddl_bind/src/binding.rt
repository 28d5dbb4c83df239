ghost use Rattle.wh_ddl_naming.specs.Statements as naming;
ghost use Rattle.wh_ddl_bind.specs.View.{names_of};
ghost use Rattle.wh_ddl_bind.specs.Binds.{Binds};

use crate::dynamic_tables::{
    create_dynamic_table, drop_dynamic_table, refresh_dynamic_table, resume_dynamic_table,
    set_target_lag, suspend_dynamic_table,
};
use crate::streams::{create_stream, drop_stream, has_data};
use crate::tables::{create_table, drop_table};
use crate::tasks::{create_task, drop_task, execute_task, resume_task, suspend_task};
use crate::{Bound, Names};
use sqlite_items::Boxed;
use std::alloc::Global;
use wh_ast::{Dml, Query, Sort, Statement};
use wh_bind::{BindFault, bind_select};
use wh_dml_bind::bind_change;

/// What a statement stands for over the objects that it may name.
#[tactic(auto, unfolding(wh_ddl_naming::specs::Statements::bound))]
pub fn bind(alloc: Global, names: &Names<'_>, statement: &Statement) -> Result<Bound, BindFault>
    ensures { Binds result (naming.bound (names_of names.now) statement.now) }
{
    match statement {
        Statement::Select(query, sorts) => select(alloc, names, query, sorts.as_slice()),
        Statement::HasData(name) => has_data(alloc, names, name),
        Statement::Dml(statement) => change(alloc, names, statement),
        Statement::CreateTable(table) => create_table(alloc, names, table),
        Statement::CreateStream(name, table, is_append_only) => {
            create_stream(alloc, names, name, table, *is_append_only)
        }
        Statement::CreateTask(task) => create_task(alloc, names, task),
        Statement::ResumeTask(name) => resume_task(alloc, names, name),
        Statement::SuspendTask(name) => suspend_task(alloc, names, name),
        Statement::ExecuteTask(name) => execute_task(alloc, names, name),
        Statement::CreateDynamicTable(table) => create_dynamic_table(alloc, names, table),
        Statement::ResumeDynamicTable(name) => resume_dynamic_table(alloc, names, name),
        Statement::SuspendDynamicTable(name) => suspend_dynamic_table(alloc, names, name),
        Statement::RefreshDynamicTable(name) => refresh_dynamic_table(alloc, names, name),
        Statement::SetTargetLag(name, lag) => set_target_lag(alloc, names, name, *lag),
        Statement::DropTable(name) => drop_table(alloc, names, name),
        Statement::DropStream(name) => drop_stream(alloc, names, name),
        Statement::DropTask(name) => drop_task(alloc, names, name),
        Statement::DropDynamicTable(name) => drop_dynamic_table(alloc, names, name),
        Statement::Begin => Ok(Bound::Begin),
        Statement::Commit => Ok(Bound::Commit),
        Statement::Rollback => Ok(Bound::Rollback),
    }
}

ghost use Rattle.wh_naming.specs.Select.{bound_select};
ghost use Rattle.wh_naming.specs.Changes.{bound_change};

#[tactic(auto, using(crate::proofs::BoundLemmas::select_bound))]
fn select(
    alloc: Global,
    names: &Names<'_>,
    query: &Query,
    sorts: &[Sort],
) -> Result<Bound, BindFault>
    ensures { Binds result (naming.selected
        (bound_select (names_of names.now).objects query.now sorts.now)) }
{
    let bound = bind_select(alloc, names.objects, query, sorts)?;
    Ok(Bound::Select(Boxed::new(alloc, bound)?))
}

#[tactic(auto, using(crate::proofs::BoundLemmas::change_bound))]
fn change(alloc: Global, names: &Names<'_>, statement: &Dml) -> Result<Bound, BindFault>
    ensures { Binds result (naming.changed
        (bound_change (names_of names.now).objects statement.now)) }
{
    let bound = bind_change(alloc, names.objects, statement)?;
    Ok(Bound::Change(Boxed::new(alloc, bound)?))
}

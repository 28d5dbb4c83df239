//! The names of objects that a statement writes, in the order of the text.
ghost use Rattle.std.specs.Prelude.{◌≡◌, [], ◌∷◌, ◌++◌, map, IfOk, OnOk};
ghost use Rattle.wh_ddl_naming.specs.Names.{names_at, all_names, source_names, join_names};
ghost use Rattle.wh_ddl_naming.specs.Names.{core_names, query_names, names_in_rows, changed_names};
ghost use Rattle.wh_ddl_naming.specs.Names.{names_of};

use std::alloc::{AllocError, Global};
use wh_ast::{Core, Dml, FromItem, Join, Query, Rows, Statement};
use wh_value::Text;

/// The names of objects that a statement writes, in the order of the text. What a task's body and
/// WHEN name is named when it runs.
pub fn names_in(alloc: Global, statement: &Statement) -> Result<Vec<&Text>, AllocError>
    ensures names { IfOk result (λ names. names_at names.items ≡ names_of statement.now) }
{
    let mut names = Vec::new(alloc);
    add_names(&mut names, statement)?;
    Ok(names)
}

/// The names of objects that a query writes, in the order of the text.
pub fn names_in_query(alloc: Global, query: &Query) -> Result<Vec<&Text>, AllocError>
    ensures names { IfOk result (λ names. names_at names.items ≡ query_names query.now) }
{
    let mut names = Vec::new(alloc);
    add_query(&mut names, query)?;
    Ok(names)
}

fn add_names<'a>(names: &mut Vec<&'a Text>, statement: &'a Statement) -> Result<(), AllocError>
    ensures { OnOk result (names_at names.new.items
        ≡ names_at names.old.items ++ names_of statement.now) }
{
    match statement {
        Statement::Select(query, _) => add_query(names, query),
        Statement::Dml(dml) => add_changed(names, dml),
        Statement::CreateStream(name, table, _) => {
            add_name(names, name)?;
            add_name(names, table)
        }
        Statement::CreateTask(task) => {
            add_name(names, &task.name)?;
            add_all(names, task.after.as_slice())
        }
        Statement::CreateDynamicTable(table) => {
            add_name(names, &table.name)?;
            add_query(names, &table.query)
        }
        Statement::CreateTable(table) => add_name(names, &table.name),
        Statement::HasData(name)
        | Statement::ResumeTask(name)
        | Statement::SuspendTask(name)
        | Statement::ExecuteTask(name)
        | Statement::ResumeDynamicTable(name)
        | Statement::SuspendDynamicTable(name)
        | Statement::RefreshDynamicTable(name)
        | Statement::SetTargetLag(name, _)
        | Statement::DropTable(name)
        | Statement::DropStream(name)
        | Statement::DropTask(name)
        | Statement::DropDynamicTable(name) => add_name(names, name),
        Statement::Begin | Statement::Commit | Statement::Rollback => Ok(()),
    }
}

fn add_name<'a>(names: &mut Vec<&'a Text>, name: &'a Text) -> Result<(), AllocError>
    ensures { OnOk result (names_at names.new.items ≡ names_at names.old.items ++ name.now ∷ []) }
{
    names.push(name)?;
    Ok(())
}

fn add_all<'a>(names: &mut Vec<&'a Text>, more: &'a [Text]) -> Result<(), AllocError>
    ensures { OnOk result (names_at names.new.items ≡ names_at names.old.items ++ more.now) }
{
    for name in more {
        add_name(names, name)?;
    }
    Ok(())
}

// The target, and what the rows are made of.
fn add_changed<'a>(names: &mut Vec<&'a Text>, dml: &'a Dml) -> Result<(), AllocError>
    ensures { OnOk result (names_at names.new.items
        ≡ names_at names.old.items ++ changed_names dml.now) }
{
    match dml {
        Dml::Insert(table, _, rows) => {
            add_name(names, table)?;
            add_rows(names, rows)
        }
        Dml::Update(table, ..) | Dml::Delete(table, _) => add_name(names, table),
        Dml::Merge(table, _, source, ..) => {
            add_name(names, table)?;
            add_source(names, source)
        }
    }
}

fn add_rows<'a>(names: &mut Vec<&'a Text>, rows: &'a Rows) -> Result<(), AllocError>
    ensures { OnOk result (names_at names.new.items
        ≡ names_at names.old.items ++ names_in_rows rows.now) }
{
    match rows {
        Rows::Values(_) => Ok(()),
        Rows::Query(query) => add_query(names, query),
    }
}

#[cycle(names)]
fn add_query<'a>(names: &mut Vec<&'a Text>, query: &'a Query) -> Result<(), AllocError>
    ensures { OnOk result (names_at names.new.items
        ≡ names_at names.old.items ++ query_names query.now) }
{
    add_cores(names, query.cores.as_slice())
}

#[cycle(names)]
fn add_cores<'a>(names: &mut Vec<&'a Text>, cores: &'a [Core]) -> Result<(), AllocError>
    ensures { OnOk result (names_at names.new.items
        ≡ names_at names.old.items ++ all_names (map core_names cores.now)) }
{
    for core in cores {
        add_core(names, core)?;
    }
    Ok(())
}

#[cycle(names)]
fn add_core<'a>(names: &mut Vec<&'a Text>, core: &'a Core) -> Result<(), AllocError>
    ensures { OnOk result (names_at names.new.items
        ≡ names_at names.old.items ++ core_names core.now) }
{
    add_source(names, &core.from)?;
    add_joins(names, core.joins.as_slice())
}

#[cycle(names)]
fn add_joins<'a>(names: &mut Vec<&'a Text>, joins: &'a [Join]) -> Result<(), AllocError>
    ensures { OnOk result (names_at names.new.items
        ≡ names_at names.old.items ++ all_names (map join_names joins.now)) }
{
    for join in joins {
        add_source(names, &join.source)?;
    }
    Ok(())
}

#[cycle(names)]
fn add_source<'a>(names: &mut Vec<&'a Text>, source: &'a FromItem) -> Result<(), AllocError>
    ensures { OnOk result (names_at names.new.items
        ≡ names_at names.old.items ++ source_names source.now) }
{
    match source {
        FromItem::Named(name, _) => add_name(names, name),
        FromItem::Subquery(query, _) => add_query(names, query.get()),
    }
}

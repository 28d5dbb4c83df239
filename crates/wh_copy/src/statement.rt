//! Copies of whole statements.
ghost use Rattle.std.specs.Prelude.{◌≡◌, IfOk};

use crate::dml::copy_dml;
use crate::parts::{Part, beside, copy_three, copy_two};
use sqlite_items::Boxed;
use std::alloc::{AllocError, Global};
use wh_ast::{CreateDynamicTable, CreateTable, CreateTask, Statement, When, WhenCondition};

/// An equal statement, with memory of its own.
pub fn copy_statement(alloc: Global, statement: &Statement) -> Result<Statement, AllocError>
    ensures { IfOk result (λ copy. copy ≡ statement.now) }
{
    match statement {
        Statement::Select(query, sorts) => {
            let (query, sorts) = copy_two(alloc, query, sorts)?;
            Ok(Statement::Select(query, sorts))
        }
        Statement::HasData(name) => Ok(Statement::HasData(name.copy(alloc)?)),
        Statement::Dml(dml) => Ok(Statement::Dml(copy_dml(alloc, dml)?)),
        Statement::CreateTable(table) => copy_create_table(alloc, table),
        Statement::CreateStream(name, table, append_only) => {
            let (name, table) = copy_two(alloc, name, table)?;
            Ok(Statement::CreateStream(name, table, *append_only))
        }
        Statement::CreateTask(task) => copy_create_task(alloc, task),
        Statement::ResumeTask(name) => Ok(Statement::ResumeTask(name.copy(alloc)?)),
        Statement::SuspendTask(name) => Ok(Statement::SuspendTask(name.copy(alloc)?)),
        Statement::ExecuteTask(name) => Ok(Statement::ExecuteTask(name.copy(alloc)?)),
        Statement::CreateDynamicTable(table) => copy_create_dynamic_table(alloc, table),
        Statement::ResumeDynamicTable(name) => Ok(Statement::ResumeDynamicTable(name.copy(alloc)?)),
        Statement::SuspendDynamicTable(name) => Ok(Statement::SuspendDynamicTable(name.copy(
            alloc,
        )?)),
        Statement::RefreshDynamicTable(name) => Ok(Statement::RefreshDynamicTable(name.copy(
            alloc,
        )?)),
        Statement::SetTargetLag(name, lag) => {
            Ok(Statement::SetTargetLag(name.copy(alloc)?, *lag))
        }
        Statement::DropTable(name) => Ok(Statement::DropTable(name.copy(alloc)?)),
        Statement::DropStream(name) => Ok(Statement::DropStream(name.copy(alloc)?)),
        Statement::DropTask(name) => Ok(Statement::DropTask(name.copy(alloc)?)),
        Statement::DropDynamicTable(name) => Ok(Statement::DropDynamicTable(name.copy(alloc)?)),
        Statement::Begin => Ok(Statement::Begin),
        Statement::Commit => Ok(Statement::Commit),
        Statement::Rollback => Ok(Statement::Rollback),
    }
}

fn copy_create_table(alloc: Global, table: &CreateTable) -> Result<Statement, AllocError>
    ensures { IfOk result (λ copy. copy ≡ Statement.CreateTable table.now) }
{
    let (name, columns) = copy_two(alloc, &table.name, &table.columns)?;
    Ok(Statement::CreateTable(CreateTable {
        replace: table.replace,
        name,
        columns,
        retention: table.retention,
    }))
}

fn copy_create_task(alloc: Global, task: &CreateTask) -> Result<Statement, AllocError>
    ensures { IfOk result (λ copy. copy ≡ Statement.CreateTask task.now) }
{
    let texts = copy_three(alloc, &task.name, &task.after, &task.body_text)?;
    let (texts, parts) = beside(texts, copy_two(alloc, &task.when, &task.body))?;
    let ((name, after, body_text), (when, body)) = (texts, parts);
    Ok(Statement::CreateTask(CreateTask {
        name,
        minutes: task.minutes,
        after,
        when,
        body,
        body_text,
    }))
}

fn copy_create_dynamic_table(
    alloc: Global,
    table: &CreateDynamicTable,
) -> Result<Statement, AllocError>
    ensures { IfOk result (λ copy. copy ≡ Statement.CreateDynamicTable table.now) }
{
    let parts = copy_three(alloc, &table.name, &table.query, &table.query_text)?;
    let (name, query, query_text) = parts;
    Ok(Statement::CreateDynamicTable(CreateDynamicTable {
        name,
        lag: table.lag,
        mode: table.mode,
        initialize: table.initialize,
        query,
        query_text,
    }))
}

impl Part for When {
    fn copied(&self, alloc: Global) -> Result<When, AllocError> {
        let (condition, text) = copy_two(alloc, &self.condition, &self.text)?;
        Ok(When { condition, text })
    }
}

impl Part for WhenCondition {
    fn copied(&self, alloc: Global) -> Result<WhenCondition, AllocError> {
        copy_condition(alloc, self)
    }
}

/// An equal condition, with memory of its own.
#[cycle(copy)]
pub fn copy_condition(alloc: Global, condition: &WhenCondition) -> Result<WhenCondition, AllocError>
    ensures { IfOk result (λ copy. copy ≡ condition.now) }
{
    match condition {
        WhenCondition::Or(x, y) => {
            let (x, y) = beside(copy_boxed(alloc, x)?, copy_boxed(alloc, y))?;
            Ok(WhenCondition::Or(x, y))
        }
        WhenCondition::And(x, y) => {
            let (x, y) = beside(copy_boxed(alloc, x)?, copy_boxed(alloc, y))?;
            Ok(WhenCondition::And(x, y))
        }
        WhenCondition::Not(x) => Ok(WhenCondition::Not(copy_boxed(alloc, x)?)),
        WhenCondition::HasData(name) => Ok(WhenCondition::HasData(name.copy(alloc)?)),
    }
}

#[cycle(copy)]
fn copy_boxed(
    alloc: Global,
    condition: &Boxed<WhenCondition>,
) -> Result<Boxed<WhenCondition>, AllocError>
    ensures { IfOk result (λ copy. copy ≡ condition.now) }
{
    Boxed::new(alloc, copy_condition(alloc, condition.get())?)
}

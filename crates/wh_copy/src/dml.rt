//! Copies of statements that change rows.
ghost use Rattle.std.specs.Prelude.{◌≡◌, IfOk};

use crate::parts::{Part, copy_three, copy_two};
use sqlite_items::Items;
use std::alloc::{AllocError, Global};
use wh_ast::{Assignment, Dml, Expr, FromItem, MergeClause, Rows};
use wh_value::Text;

/// An equal statement, with memory of its own.
pub fn copy_dml(alloc: Global, dml: &Dml) -> Result<Dml, AllocError>
    ensures { IfOk result (λ copy. copy ≡ dml.now) }
{
    dml.copied(alloc)
}

impl Part for Dml {
    fn copied(&self, alloc: Global) -> Result<Dml, AllocError> {
        match self {
            Dml::Insert(table, columns, rows) => {
                let (table, columns, rows) = copy_three(alloc, table, columns, rows)?;
                Ok(Dml::Insert(table, columns, rows))
            }
            Dml::Update(table, assignments, filter) => {
                let (table, assignments, filter) = copy_three(alloc, table, assignments, filter)?;
                Ok(Dml::Update(table, assignments, filter))
            }
            Dml::Delete(table, filter) => {
                let (table, filter) = copy_two(alloc, table, filter)?;
                Ok(Dml::Delete(table, filter))
            }
            Dml::Merge(target, alias, source, on, clauses) => {
                copy_merge(alloc, target, alias, source, on, clauses)
            }
        }
    }
}

fn copy_merge(
    alloc: Global,
    target: &Text,
    alias: &Option<Text>,
    source: &FromItem,
    on: &Expr,
    clauses: &Items<MergeClause>,
) -> Result<Dml, AllocError>
    ensures { IfOk result (λ copy. copy
        ≡ Dml.Merge target.now alias.now source.now on.now clauses.now) }
{
    let (target, alias) = copy_two(alloc, target, alias)?;
    let (source, on, clauses) = copy_three(alloc, source, on, clauses)?;
    Ok(Dml::Merge(target, alias, source, on, clauses))
}

impl Part for Rows {
    fn copied(&self, alloc: Global) -> Result<Rows, AllocError> {
        match self {
            Rows::Values(rows) => Ok(Rows::Values(rows.copied(alloc)?)),
            Rows::Query(query) => Ok(Rows::Query(query.copied(alloc)?)),
        }
    }
}

impl Part for Assignment {
    fn copied(&self, alloc: Global) -> Result<Assignment, AllocError> {
        let (column, value) = copy_two(alloc, &self.column, &self.value)?;
        Ok(Assignment { column, value })
    }
}

impl Part for MergeClause {
    fn copied(&self, alloc: Global) -> Result<MergeClause, AllocError> {
        match self {
            MergeClause::Update(condition, assignments) => {
                let (condition, assignments) = copy_two(alloc, condition, assignments)?;
                Ok(MergeClause::Update(condition, assignments))
            }
            MergeClause::Delete(condition) => Ok(MergeClause::Delete(condition.copied(alloc)?)),
            MergeClause::Insert(condition, columns, values) => {
                let (condition, columns, values) = copy_three(alloc, condition, columns, values)?;
                Ok(MergeClause::Insert(condition, columns, values))
            }
        }
    }
}

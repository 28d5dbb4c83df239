//! Copies of queries.
ghost use Rattle.std.specs.Prelude.{◌≡◌, IfOk};

use crate::expr::copy_expr;
use crate::parts::{Part, beside, copy_three, copy_two};
use sqlite_items::{Boxed, Items};
use std::alloc::{AllocError, Global};
use wh_ast::{Core, FromItem, Item, Join, OrderKey, Query, Sort};

/// An equal query, with memory of its own.
#[cycle(copy)]
pub fn copy_query(alloc: Global, query: &Query) -> Result<Query, AllocError>
    ensures { IfOk result (λ copy. copy ≡ query.now) }
{
    let mut copies = Items::new(alloc);
    let cores = query.cores.as_slice();
    for core in cores {
        copies.push(copy_core(alloc, core)?)?;
    }
    Ok(Query { cores: copies })
}

// An equal core, with memory of its own.
#[cycle(copy)]
fn copy_core(alloc: Global, core: &Core) -> Result<Core, AllocError>
    ensures { IfOk result (λ copy. copy ≡ core.now) }
{
    let parts = copy_three(alloc, &core.items, &core.filter, &core.group)?;
    let (parts, joins) = beside(parts, copy_joins(alloc, core.joins.as_slice()))?;
    let ((parts, joins), from) = beside((parts, joins), copy_source(alloc, &core.from))?;
    let (items, filter, group) = parts;
    Ok(Core {
        items,
        from,
        joins,
        filter,
        group,
    })
}

// An equal source, with memory of its own.
#[cycle(copy)]
fn copy_source(alloc: Global, source: &FromItem) -> Result<FromItem, AllocError>
    ensures { IfOk result (λ copy. copy ≡ source.now) }
{
    match source {
        FromItem::Named(name, alias) => {
            let (name, alias) = copy_two(alloc, name, alias)?;
            Ok(FromItem::Named(name, alias))
        }
        FromItem::Subquery(query, alias) => {
            let query = Boxed::new(alloc, copy_query(alloc, query.get())?)?;
            let (query, alias) = beside(query, alias.copy(alloc))?;
            Ok(FromItem::Subquery(query, alias))
        }
    }
}

// An equal join, with memory of its own.
#[cycle(copy)]
fn copy_join(alloc: Global, join: &Join) -> Result<Join, AllocError>
    ensures { IfOk result (λ copy. copy ≡ join.now) }
{
    let on = copy_expr(alloc, &join.on)?;
    let (on, source) = beside(on, copy_source(alloc, &join.source))?;
    Ok(Join { source, on })
}

#[cycle(copy)]
fn copy_joins(alloc: Global, joins: &[Join]) -> Result<Items<Join>, AllocError>
    ensures { IfOk result (λ copies. copies ≡ joins.now) }
{
    let mut copies = Items::new(alloc);
    for join in joins {
        copies.push(copy_join(alloc, join)?)?;
    }
    Ok(copies)
}

impl Part for Query {
    fn copied(&self, alloc: Global) -> Result<Query, AllocError> {
        copy_query(alloc, self)
    }
}

impl Part for FromItem {
    fn copied(&self, alloc: Global) -> Result<FromItem, AllocError> {
        copy_source(alloc, self)
    }
}

impl Part for Item {
    fn copied(&self, alloc: Global) -> Result<Item, AllocError> {
        match self {
            Item::Star => Ok(Item::Star),
            Item::StarOf(entry) => Ok(Item::StarOf(entry.copy(alloc)?)),
            Item::Expr(expr, alias) => {
                let (expr, alias) = copy_two(alloc, expr, alias)?;
                Ok(Item::Expr(expr, alias))
            }
        }
    }
}

impl Part for Sort {
    fn copied(&self, alloc: Global) -> Result<Sort, AllocError> {
        Ok(Sort {
            key: copy_key(alloc, &self.key)?,
            descending: self.descending,
        })
    }
}

// An equal key, with memory of its own.
fn copy_key(alloc: Global, key: &OrderKey) -> Result<OrderKey, AllocError>
    ensures { IfOk result (λ copy. copy ≡ key.now) }
{
    match key {
        OrderKey::Name(name) => Ok(OrderKey::Name(name.copy(alloc)?)),
        OrderKey::Position(position) => Ok(OrderKey::Position(*position)),
    }
}

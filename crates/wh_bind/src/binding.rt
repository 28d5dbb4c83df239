ghost use Rattle.std.specs.Prelude.{◌≡◌, None, map, IfOk};
ghost use Rattle.wh_naming.specs.View.{named_of};
ghost use Rattle.wh_bind.specs.Steps.{gathered, joined_on};
ghost use Rattle.wh_core_bind.specs.View.{joined_in, query_in};
ghost use Rattle.wh_bind.specs.View.{source_in, source_part, join_part, core_reading};
ghost use Rattle.wh_bind.specs.View.{query_reading};

use crate::cores::bound_core;
use crate::joins::{first_entry, joins_behind, number_behind, with_entry};
use crate::sources::{BoundSource, object_source, query_source};
use crate::unions::{no_query, number_after, with_core};
use sqlite_items::Boxed;
use std::alloc::{AllocError, Global};
use wh_ast::{Core, FromItem, Join, Query};
use wh_core_bind::{BoundQuery, Joined};
use wh_naming::Named;

/// A query as it is written, whose sources have the numbers from `next` on.
#[cycle(bind)]
pub fn bind_query(
    alloc: Global,
    names: &[Named<'_>],
    next: u32,
    query: &Query,
) -> Result<Boxed<BoundQuery>, AllocError>
    ensures { IfOk result (λ q. query_in q
        ≡ query_reading query.now (map named_of names.now) next) }
{
    bind_cores(alloc, names, next, query.cores.as_slice())
}

#[cycle(bind)]
fn bind_cores(
    alloc: Global,
    names: &[Named<'_>],
    next: u32,
    cores: &[Core],
) -> Result<Boxed<BoundQuery>, AllocError>
    ensures { IfOk result (λ q. query_in q
        ≡ gathered (map named_of names.now) next None (map core_reading cores.now)) }
{
    let mut so_far: Option<Boxed<BoundQuery>> = None;
    for core in cores {
        let number = number_after(next, &so_far)?;
        let bound = bind_core(alloc, names, number, core)?;
        so_far = Some(with_core(alloc, so_far, bound)?);
    }
    match so_far {
        Some(query) => Ok(query),
        None => no_query(alloc),
    }
}

#[cycle(bind)]
fn bind_core(
    alloc: Global,
    names: &[Named<'_>],
    next: u32,
    core: &Core,
) -> Result<Boxed<BoundQuery>, AllocError>
    ensures { IfOk result (λ q. query_in q
        ≡ core_reading core.now (map named_of names.now) next) }
{
    let joins = core.joins.as_slice();
    let source = bind_source(alloc, names, next, &core.from)?;
    let first = first_entry(alloc, &core.from, joins, source)?;
    let joined = bind_joins(alloc, names, next, first, joins)?;
    bound_core(
        alloc,
        core.items.as_slice(),
        joined,
        &core.filter,
        core.group.as_slice(),
    )
}

#[cycle(bind)]
fn bind_joins(
    alloc: Global,
    names: &[Named<'_>],
    next: u32,
    first: Boxed<Joined>,
    joins: &[Join],
) -> Result<Boxed<Joined>, AllocError>
    ensures { IfOk result (λ j. joined_in j ≡ joined_on (map named_of names.now) next
        (joined_in first) (map join_part joins.now)) }
{
    let mut left = first;
    for place in 0..joins.len() {
        let join = &joins[place];
        let number = number_behind(next, &left)?;
        let source = bind_source(alloc, names, number, &join.source)?;
        left = with_entry(alloc, left, join, joins_behind(joins, place), source)?;
    }
    Ok(left)
}

/// A FROM entry with its rows, whose sources have the numbers from `number` on.
#[cycle(bind)]
pub fn bind_source(
    alloc: Global,
    names: &[Named<'_>],
    number: u32,
    source: &FromItem,
) -> Result<Boxed<BoundSource>, AllocError>
    ensures { IfOk result (λ s. source_in s
        ≡ (source_part source.now).reading (map named_of names.now) number) }
{
    match source {
        FromItem::Named(name, _) => object_source(alloc, names, number, name),
        FromItem::Subquery(query, _) => {
            query_source(alloc, bind_query(alloc, names, number, query.get())?)
        }
    }
}

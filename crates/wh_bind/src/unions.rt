ghost use Rattle.std.specs.Prelude.{◌≡◌, ◌+◌, ◌++◌, option_map, IfOk};
ghost use Rattle.wh_naming.specs.Select as naming;
ghost use Rattle.wh_bind.specs.Steps.{number_behind, after_core};
ghost use Rattle.wh_core_bind.specs.View.{query_in};
ghost use Rattle.wh_algebra.specs.View.{query_of};
ghost use Rattle.wh_expr_bind.specs.View.{findings_of};

use crate::merging::{fit_each_other, merged};
use sqlite_items::Boxed;
use std::alloc::{AllocError, Global};
use wh_algebra::Query;
use wh_core_bind::BoundQuery;
use wh_expr_bind::Findings;

/// The query of no core.
#[tactic(auto, unfolding(wh_core_bind::specs::View::query_in))]
pub(crate) fn no_query(alloc: Global) -> Result<Boxed<BoundQuery>, AllocError>
    ensures { IfOk result (λ q. query_in q ≡ naming.no_query) }
{
    Boxed::new(
        alloc,
        BoundQuery {
            query: Query::Scan(0),
            outputs: Vec::new(alloc),
            sources: Vec::new(alloc),
            findings: Findings::nothing(),
            is_wide: false,
        },
    )
}

/// A core behind those so far, by UNION ALL.
#[tactic(auto, unfolding(crate::specs::Steps::after_core))]
pub(crate) fn with_core(
    alloc: Global,
    so_far: Option<Boxed<BoundQuery>>,
    core: Boxed<BoundQuery>,
) -> Result<Boxed<BoundQuery>, AllocError>
    ensures { IfOk result (λ q. query_in q
        ≡ after_core (option_map query_in so_far) (query_in core)) }
{
    match so_far {
        None => Ok(core),
        Some(query) => united(alloc, query, core),
    }
}

#[tactic(auto, unfolding(wh_core_bind::specs::View::query_in))]
fn united(
    alloc: Global,
    query: Boxed<BoundQuery>,
    other: Boxed<BoundQuery>,
) -> Result<Boxed<BoundQuery>, AllocError>
    ensures { IfOk result (λ q. query_in q ≡ naming.united (query_in query) (query_in other)) }
{
    let is_mistyped = !fit_each_other(&query.get().outputs, &other.get().outputs);
    let is_wide = query.get().is_wide || other.get().is_wide;
    let outputs = merged(alloc, &query.get().outputs, &other.get().outputs)?;
    let sources = both_ids(alloc, &query.get().sources, &other.get().sources)?;
    let first = rows_of(alloc, query)?;
    let second = rows_of(alloc, other)?;
    let found = first.findings.followed(second.findings);
    Boxed::new(
        alloc,
        BoundQuery {
            query: Query::UnionAll(first.query, second.query),
            outputs,
            sources,
            findings: found.followed(Findings::mistyped_if(is_mistyped)),
            is_wide,
        },
    )
}

/// The rows of a query, and what is found wrong in it.
#[derive(Debug, Drop)]
struct Rows {
    query: Boxed<Query>,
    findings: Findings,
}

#[tactic(auto, unfolding(wh_core_bind::specs::View::query_in))]
fn rows_of(alloc: Global, query: Boxed<BoundQuery>) -> Result<Rows, AllocError>
    ensures query { IfOk result (λ r. query_of r.query ≡ (query_in query).query) }
    ensures findings { IfOk result (λ r. findings_of r.findings ≡ (query_in query).findings) }
{
    let query = query.into_inner();
    Ok(Rows {
        query: Boxed::new(alloc, query.query)?,
        findings: query.findings,
    })
}

/// The ids of both, in their order.
pub(crate) fn both_ids(alloc: Global, ids: &[u32], more: &[u32]) -> Result<Vec<u32>, AllocError>
    ensures { IfOk result (λ both. both.items ≡ ids.now ++ more.now) }
{
    let mut both = Vec::from_slice(alloc, ids)?;
    both.extend_from_slice(more)?;
    Ok(both)
}

/// The number of the next source behind the cores so far.
#[tactic(auto, unfolding(wh_core_bind::specs::View::query_in, crate::specs::Steps::number_behind))]
pub(crate) fn number_after(next: u32, so_far: &Option<Boxed<BoundQuery>>) -> Result<u32, AllocError>
    ensures { IfOk result (λ n. n ≡ number_behind next (option_map query_in so_far.now)) }
{
    match so_far {
        None => Ok(next),
        Some(query) => behind(next, query.get().sources.len()),
    }
}

/// The number behind that many more.
pub(crate) fn behind(number: u32, count: usize) -> Result<u32, AllocError>
    ensures { IfOk result (λ n. n ≡ number + count) }
{
    let Ok(count) = u32::try_from(count) else {
        return Err(AllocError);
    };
    match number.checked_add(count) {
        Some(behind) => Ok(behind),
        None => Err(AllocError),
    }
}

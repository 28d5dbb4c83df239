ghost use Rattle.std.specs.Prelude.{◌≡◌, IfOk};
ghost use Rattle.wh_naming.specs.Select as naming;
ghost use Rattle.wh_core_bind.specs.View.{joined_in, query_in};

use crate::filters::{filtered, row_filter};
use crate::group::projected;
use crate::items::all_shown;
use crate::keys::{GroupKeys, group_keys};
use crate::shown::Shown;
use crate::{BoundQuery, Joined, Output};
use sqlite_items::Boxed;
use std::alloc::{AllocError, Global};
use wh_algebra::{Call, Query};
use wh_ast::{Expr, Item};
use wh_expr_bind::{Findings, width};
use wh_value::Limit;

/// A core over its FROM entries: WHERE, then its groups, then its items.
#[tactic(auto, unfolding(crate::specs::View::joined_in, crate::specs::View::query_in))]
pub fn bound_core(
    alloc: Global,
    items: &[Item],
    joined: Joined,
    filter: &Option<Expr>,
    group: &[Expr],
) -> Result<BoundQuery, AllocError>
    ensures { IfOk result (λ q. query_in q
        ≡ naming.bound_core items.now (joined_in joined) filter.now group.now) }
{
    // Boxed, so that each drop on the way is one call.
    let joined = Boxed::new(alloc, joined)?;
    let shown = Boxed::new(alloc, all_shown(alloc, &joined.get().entries, items)?)?;
    core_of(alloc, joined, filter, group, shown)
}

ghost use Rattle.std.specs.Prelude.{option_map};
ghost use Rattle.wh_scalar.specs.View.{scalar_of};
ghost use Rattle.wh_algebra.specs.View.{query_of, scalars_of};
ghost use Rattle.wh_naming.specs.Findings as wrong;
ghost use Rattle.wh_expr_bind.specs.View.{entries_of, findings_of};
ghost use Rattle.wh_core_bind.specs.View.{shown_in};
ghost use Rattle.wh_core_bind.specs.Parts.{filter_of, filtered, finished};

#[tactic(auto, unfolding(crate::specs::View::joined_in))]
fn core_of(
    alloc: Global,
    joined: Boxed<Joined>,
    filter: &Option<Expr>,
    group: &[Expr],
    shown: Boxed<Shown>,
) -> Result<BoundQuery, AllocError>
    ensures { IfOk result (λ q. query_in q
        ≡ naming.core_of (joined_in joined) filter.now group.now (shown_in shown)) }
{
    let is_grouped = is_grouped(group, &shown.get().calls);
    let width = width(&joined.get().entries)?;
    let keys = Boxed::new(alloc, group_keys(alloc, &joined.get().entries, group)?)?;
    let rows = filtered_rows(alloc, joined, filter)?;
    finished(alloc, is_grouped, rows, keys, width, shown)
}

ghost use Rattle.wh_algebra.specs.View.{calls_of};

fn is_grouped(group: &[Expr], calls: &[Call]) -> bool
    ensures { result ≡ naming.is_grouped group.now (calls_of calls.now) }
{
    match (group, calls) {
        ([], []) => false,
        _ => true,
    }
}

/// The rows below the items of a core, and what is found wrong in FROM and WHERE.
#[derive(Debug, Drop)]
struct Rows {
    query: Query,
    sources: Vec<u32>,
    findings: Findings,
    is_wide: bool,
}

fn filtered_rows(
    alloc: Global,
    joined: Boxed<Joined>,
    filter: &Option<Expr>,
) -> Result<Rows, AllocError>
    ensures query { IfOk result (λ r. query_of r.query ≡ filtered (query_of joined.query)
        (filter_of (entries_of joined.entries.items) filter.now)) }
    ensures sources { IfOk result (λ r. r.sources.items ≡ joined.sources.items) }
    ensures findings { IfOk result (λ r. findings_of r.findings
        ≡ wrong.followed (findings_of joined.findings)
        (naming.filter_findings (entries_of joined.entries.items) filter.now)) }
    ensures wide { IfOk result (λ r. r.is_wide ≡ joined.is_wide) }
{
    let filter = row_filter(alloc, &joined.get().entries, filter)?;
    let joined = joined.into_inner();
    let findings = joined.findings.followed(filter.findings);
    Ok(Rows {
        query: filtered(alloc, joined.query, filter.scalar)?,
        sources: joined.sources,
        findings,
        is_wide: joined.is_wide,
    })
}

#[tactic(auto, unfolding(crate::specs::View::query_in))]
fn finished(
    alloc: Global,
    is_grouped: bool,
    rows: Rows,
    keys: Boxed<GroupKeys>,
    width: usize,
    shown: Boxed<Shown>,
) -> Result<BoundQuery, AllocError>
    ensures { IfOk result (λ q. query_in q ≡ finished is_grouped (query_of rows.query)
        rows.sources.items rows.is_wide
        (wrong.followed (findings_of rows.findings) (findings_of keys.findings))
        (scalars_of keys.scalars.items) width (shown_in shown)) }
{
    let is_wide = rows.is_wide || is_too_wide(&shown.get().outputs);
    let keys = keys.into_inner();
    let shown = shown.into_inner();
    let below = rows.findings.followed(keys.findings);
    let found = shown.findings.followed(below);
    let items = projected(
        alloc,
        is_grouped,
        rows.query,
        keys.scalars,
        width,
        shown.scalars,
        shown.calls,
        shown.has_star,
    )?;
    Ok(BoundQuery {
        query: items.query,
        outputs: shown.outputs,
        sources: rows.sources,
        findings: found.followed(items.findings),
        is_wide,
    })
}

ghost use Rattle.wh_core_bind.specs.View.{outputs_of};

fn is_too_wide(outputs: &[Output]) -> bool
    ensures { result ≡ naming.is_too_wide (outputs_of outputs.now) }
{
    Limit::Output.bound() < outputs.len() as u64
}

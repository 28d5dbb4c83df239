ghost use Rattle.std.specs.Prelude.{◌≡◌, IfOk, option_map};
ghost use Rattle.wh_scalar.specs.View.{scalar_of};
ghost use Rattle.wh_algebra.specs.View.{query_of};
ghost use Rattle.wh_naming.specs.Select as naming;
ghost use Rattle.wh_expr_bind.specs.View.{entries_of, findings_of};
ghost use Rattle.wh_core_bind.specs.Parts.{filter_of, filtered};

use crate::BoundCondition;
use sqlite_items::Boxed;
use std::alloc::{AllocError, Global};
use wh_algebra::Query;
use wh_ast::Expr;
use wh_expr_bind::{Entry, Findings, alike, typed};
use wh_scalar::Scalar;
use wh_value::ColumnType;

/// A condition over the columns of entries. It is a BOOLEAN.
pub fn condition(alloc: Global, entries: &[Entry], x: &Expr) -> Result<BoundCondition, AllocError>
    ensures scalar { IfOk result (λ c. scalar_of c.scalar
        ≡ (naming.plain (entries_of entries.now) x.now).scalar) }
    ensures findings { IfOk result (λ c. findings_of c.findings
        ≡ naming.condition_findings (naming.plain (entries_of entries.now) x.now)) }
{
    let x = typed(alloc, x, entries, false, 0)?;
    let is_mistyped = !alike(Some(ColumnType::Boolean), x.type_of);
    Ok(BoundCondition {
        scalar: x.scalar,
        findings: x.findings.followed(Findings::mistyped_if(is_mistyped)),
    })
}

/// WHERE, if there is one, and what is found wrong in it.
#[derive(Debug, Drop)]
pub(crate) struct Filter {
    pub scalar: Option<Scalar>,
    pub findings: Findings,
}

pub(crate) fn row_filter(
    alloc: Global,
    entries: &[Entry],
    filter: &Option<Expr>,
) -> Result<Filter, AllocError>
    ensures scalar { IfOk result (λ c. option_map scalar_of c.scalar
        ≡ filter_of (entries_of entries.now) filter.now) }
    ensures findings { IfOk result (λ c. findings_of c.findings
        ≡ naming.filter_findings (entries_of entries.now) filter.now) }
{
    let Some(filter) = filter else {
        return Ok(Filter {
            scalar: None,
            findings: Findings::nothing(),
        });
    };
    let met = condition(alloc, entries, filter)?;
    Ok(Filter {
        scalar: Some(met.scalar),
        findings: met.findings,
    })
}

/// The rows on which the condition is TRUE, if there is one.
pub(crate) fn filtered(
    alloc: Global,
    query: Query,
    scalar: Option<Scalar>,
) -> Result<Query, AllocError>
    ensures { IfOk result (λ q. query_of q
        ≡ filtered (query_of query) (option_map scalar_of scalar)) }
{
    match scalar {
        Some(scalar) => Ok(Query::Filter(Boxed::new(alloc, query)?, scalar)),
        None => Ok(query),
    }
}

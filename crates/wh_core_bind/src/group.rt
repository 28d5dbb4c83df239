ghost use Rattle.std.specs.Prelude.{◌≡◌, IfOk, not, is_some, option_map};
ghost use Rattle.std.specs.List.{list_any};
ghost use Rattle.wh_scalar.specs.View.{scalar_of};
ghost use Rattle.wh_algebra.specs.View.{query_of, scalars_of, calls_of};
ghost use Rattle.wh_naming.specs.Select as naming;
ghost use Rattle.wh_naming.specs.Grouping.{regrouped};
ghost use Rattle.wh_expr_bind.specs.View.{findings_of};
ghost use Rattle.wh_core_bind.specs.Parts.{projected_from, found_in_groups};

use sqlite_items::{Boxed, Items};
use std::alloc::{AllocError, Global};
use wh_algebra::{Call, Query};
use wh_expr_bind::Findings;
use wh_regroup::regrouped;
use wh_scalar::Scalar;
use wh_value::Value;

/// Items over rows, and what is found wrong with them there.
#[derive(Debug, Drop)]
pub(crate) struct ItemRows {
    pub query: Query,
    pub findings: Findings,
}

/// Items over rows, or over the groups of rows, where no star stands among them.
pub(crate) fn projected(
    alloc: Global,
    is_grouped: bool,
    rows: Query,
    keys: Vec<Scalar>,
    width: usize,
    scalars: Vec<Scalar>,
    calls: Vec<Call>,
    has_star: bool,
) -> Result<ItemRows, AllocError>
    ensures query { IfOk result (λ p. query_of p.query ≡ projected_from is_grouped (query_of rows)
        (scalars_of keys.items) width (scalars_of scalars.items) (calls_of calls.items)) }
    ensures findings { IfOk result (λ p. findings_of p.findings ≡ found_in_groups is_grouped
        has_star (scalars_of keys.items) width (scalars_of scalars.items)) }
{
    let rows = Boxed::new(alloc, rows)?;
    if !is_grouped {
        return Ok(ItemRows {
            query: Query::Project(rows, Items::from_vec(scalars)),
            findings: Findings::nothing(),
        });
    }
    let items = all_regrouped(alloc, &keys, width, &scalars)?;
    let groups = Query::Group(rows, Items::from_vec(keys), Items::from_vec(calls));
    Ok(ItemRows {
        query: Query::Project(Boxed::new(alloc, groups)?, Items::from_vec(items.scalars)),
        findings: Findings::mistyped_if(has_star || items.is_outside),
    })
}

/// Items over the rows of groups, and whether a column stands in one outside of keys and calls.
#[derive(Debug, Drop)]
struct Regrouped {
    scalars: Vec<Scalar>,
    is_outside: bool,
}

fn all_regrouped(
    alloc: Global,
    keys: &[Scalar],
    width: usize,
    scalars: &[Scalar],
) -> Result<Regrouped, AllocError>
    ensures scalars { IfOk result (λ r. scalars_of r.scalars.items
        ≡ naming.regrouped_all (scalars_of keys.now) width (scalars_of scalars.now)) }
    ensures outside { IfOk result (λ r. r.is_outside
        ≡ list_any (λ s. not (is_some (regrouped (scalars_of keys.now) width s)))
        (scalars_of scalars.now)) }
{
    let mut over_groups = Vec::new(alloc);
    let mut is_outside = false;
    for scalar in scalars {
        let found = regrouped(alloc, keys, width, scalar)?;
        is_outside = is_outside || found.is_none();
        over_groups.push(scalar_or_null(found))?;
    }
    Ok(Regrouped {
        scalars: over_groups,
        is_outside,
    })
}

fn scalar_or_null(found: Option<Scalar>) -> Scalar
    ensures { scalar_of result ≡ naming.scalar_or (option_map scalar_of found) }
{
    match found {
        Some(scalar) => scalar,
        None => Scalar::Const(Value::Null),
    }
}

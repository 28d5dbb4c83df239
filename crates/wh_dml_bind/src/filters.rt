ghost use Rattle.std.specs.Prelude.{◌≡◌, IfOk};
ghost use Rattle.wh_scalar.specs.View.{scalar_of};
ghost use Rattle.wh_naming.specs.Select as select;
ghost use Rattle.wh_naming.specs.Changes as naming;
ghost use Rattle.wh_expr_bind.specs.View.{entries_of, findings_of};

use std::alloc::{AllocError, Global};
use wh_ast::Expr;
use wh_core_bind::{BoundCondition, condition};
use wh_expr_bind::{Entry, Findings};
use wh_scalar::Scalar;
use wh_value::Value;

/// A condition that may be missing. Then it is TRUE.
pub(crate) fn condition_of(
    alloc: Global,
    entries: &[Entry],
    filter: &Option<Expr>,
) -> Result<BoundCondition, AllocError>
    ensures scalar { IfOk result (λ c. scalar_of c.scalar
        ≡ naming.condition_of (entries_of entries.now) filter.now) }
    ensures findings { IfOk result (λ c. findings_of c.findings
        ≡ select.filter_findings (entries_of entries.now) filter.now) }
{
    match filter {
        Some(filter) => condition(alloc, entries, filter),
        None => Ok(BoundCondition {
            scalar: Scalar::Const(Value::Bool(true)),
            findings: Findings::nothing(),
        }),
    }
}

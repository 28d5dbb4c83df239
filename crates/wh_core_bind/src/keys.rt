ghost use Rattle.std.specs.Prelude.{◌≡◌, IfOk};
ghost use Rattle.wh_algebra.specs.View.{scalars_of};
ghost use Rattle.wh_naming.specs.Select as naming;
ghost use Rattle.wh_expr_bind.specs.View.{entries_of, findings_of};

use std::alloc::{AllocError, Global};
use wh_ast::Expr;
use wh_expr_bind::{Entry, Findings, typed};
use wh_scalar::Scalar;

/// The keys of GROUP BY, and what is found wrong in them.
#[derive(Debug, Drop)]
pub(crate) struct GroupKeys {
    pub scalars: Vec<Scalar>,
    pub findings: Findings,
}

pub(crate) fn group_keys(
    alloc: Global,
    entries: &[Entry],
    group: &[Expr],
) -> Result<GroupKeys, AllocError>
    ensures scalars { IfOk result (λ k. scalars_of k.scalars.items
        ≡ naming.key_scalars (entries_of entries.now) group.now) }
    ensures findings { IfOk result (λ k. findings_of k.findings
        ≡ naming.key_findings (entries_of entries.now) group.now) }
{
    let mut scalars = Vec::new(alloc);
    let mut findings = Findings::nothing();
    for key in group {
        let x = typed(alloc, key, entries, false, 0)?;
        scalars.push(x.scalar)?;
        findings = findings.followed(x.findings);
    }
    Ok(GroupKeys { scalars, findings })
}

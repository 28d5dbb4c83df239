ghost use Rattle.std.specs.Prelude.{◌≡◌, IfOk};
ghost use Rattle.wh_naming.specs.Changes as naming;
ghost use Rattle.wh_expr_bind.specs.View.{entries_of};
ghost use Rattle.wh_dml_bind.specs.View.{target_in, checked_in};

use crate::assignments::changed_row;
use crate::checked::Checked;
use crate::filters::condition_of;
use crate::target::{Target, change_alone};
use sqlite_items::Boxed;
use std::alloc::{AllocError, Global};
use wh_ast::{Assignment, Expr};
use wh_bound_change::Modification;
use wh_expr_bind::Entry;

/// UPDATE of the rows on which its condition is TRUE.
pub(crate) fn update(
    alloc: Global,
    target: Target<'_>,
    entries: &[Entry],
    parts: &[Assignment],
    filter: &Option<Expr>,
) -> Result<Boxed<Checked>, AllocError>
    ensures { IfOk result (λ c. checked_in c ≡ naming.bound_update (target_in target.entry)
        (entries_of entries.now) parts.now filter.now) }
{
    let row = changed_row(alloc, target.columns, entries, parts)?;
    let filter = condition_of(alloc, entries, filter)?;
    let findings = row.findings.followed(filter.findings);
    change_alone(
        alloc,
        target,
        Modification::Update(filter.scalar, row.scalars),
        findings,
    )
}

/// DELETE of the rows on which its condition is TRUE.
pub(crate) fn delete(
    alloc: Global,
    target: Target<'_>,
    entries: &[Entry],
    filter: &Option<Expr>,
) -> Result<Boxed<Checked>, AllocError>
    ensures { IfOk result (λ c. checked_in c ≡ naming.bound_delete (target_in target.entry)
        (entries_of entries.now) filter.now) }
{
    let filter = condition_of(alloc, entries, filter)?;
    change_alone(
        alloc,
        target,
        Modification::Delete(filter.scalar),
        filter.findings,
    )
}

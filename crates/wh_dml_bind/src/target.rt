ghost use Rattle.std.specs.Prelude.{◌≡◌, ◌∷◌, [], map, not, IfOk};
ghost use Rattle.wh_value.specs.View.{column_of};
ghost use Rattle.wh_naming.specs.Findings as wrong;
ghost use Rattle.wh_naming.specs.Changes as naming;
ghost use Rattle.wh_naming.specs.View.{named_of, kind_of};
ghost use Rattle.wh_expr_bind.specs.View.{entries_of, findings_of};
ghost use Rattle.wh_bound_change.specs.View.{change_of};
ghost use Rattle.wh_dml_bind.specs.View.{target_in, checked_in};

use crate::checked::Checked;
use sqlite_items::Boxed;
use std::alloc::{AllocError, Global};
use wh_bind::{copied_columns, find};
use wh_bound_change::{BoundChange, Modification};
use wh_expr_bind::{Entry, Findings};
use wh_naming::{Named, ObjectKind};
use wh_value::{Column, Text};

/// The table that a statement changes, and what is found wrong with its name.
#[derive(Drop)]
pub(crate) struct Target<'a> {
    pub id: u32,
    pub columns: &'a [Column],
    pub findings: Findings,
}

/// What a name stands for as a target.
pub(crate) fn target_at<'a>(
    alloc: Global,
    names: &[Named<'a>],
    name: &Text,
) -> Result<Target<'a>, AllocError>
    ensures { IfOk result (λ t. target_in t
        ≡ naming.target_at (map named_of names.now) name.now) }
{
    let Some(object) = find(names, name) else {
        return Ok(Target {
            id: 0,
            columns: &[],
            findings: Findings::unknown_object(name.copy(alloc)?),
        });
    };
    Ok(Target {
        id: object.id,
        columns: object.columns,
        findings: kind_findings(alloc, object.kind, name)?,
    })
}

// Only a table's rows are changed by statements.
fn kind_findings(alloc: Global, kind: ObjectKind, name: &Text) -> Result<Findings, AllocError>
    ensures { IfOk result (λ f. findings_of f
        ≡ wrong.wrong_kind_if (not (naming.is_table (kind_of kind))) name.now) }
{
    match kind {
        ObjectKind::Table => Ok(Findings::nothing()),
        ObjectKind::Stream | ObjectKind::Task | ObjectKind::DynamicTable => {
            Ok(Findings::wrong_kind(name.copy(alloc)?))
        }
    }
}

/// The target as the one entry that expressions see.
pub(crate) fn target_entries(
    alloc: Global,
    name: &Text,
    target: &Target<'_>,
) -> Result<Vec<Entry>, AllocError>
    ensures { IfOk result (λ es. entries_of es.items
        ≡ naming.target_entry name.now (target_in target.now) ∷ []) }
{
    let name = name.copy(alloc)?;
    let columns = copied_columns(alloc, target.columns)?;
    Ok(vec![in alloc; Entry { name, columns }]?)
}

/// A change that reads its target alone.
#[tactic(auto, unfolding(crate::specs::View::checked_in))]
pub(crate) fn change_alone(
    alloc: Global,
    target: Target<'_>,
    change: Modification,
    findings: Findings,
) -> Result<Boxed<Checked>, AllocError>
    ensures { IfOk result (λ c. checked_in c
        ≡ naming.change_alone (target_in target.entry) (change_of change) (findings_of findings)) }
{
    let bound = BoundChange {
        target: target.id,
        change,
        sources: Vec::new(alloc),
        is_wide: false,
    };
    let findings = target.findings.followed(findings);
    Boxed::new(alloc, Checked { bound, findings })
}

ghost use Rattle.std.specs.Prelude.{◌≡◌, ◌∷◌, [], map, bytes_eq, IfOk};
ghost use Rattle.wh_value.specs.View.{column_of};
ghost use Rattle.wh_scalar.specs.View.{scalar_of};
ghost use Rattle.wh_naming.specs.Findings as wrong;
ghost use Rattle.wh_naming.specs.Select as select;
ghost use Rattle.wh_naming.specs.Changes as naming;
ghost use Rattle.wh_naming.specs.View.{named_of};
ghost use Rattle.wh_expr_bind.specs.View.{entries_of, findings_of};
ghost use Rattle.wh_bind.specs.View.{source_in};
ghost use Rattle.wh_bound_change.specs.View.{clauses_of};
ghost use Rattle.wh_dml_bind.specs.View.{target_in, merge_in, checked_in};
ghost use Rattle.wh_dml_bind.specs.Steps.{source_entry};

use crate::checked::Checked;
use crate::clauses::bound_clauses;
use crate::target::{Target, target_entries};
use sqlite_items::Boxed;
use std::alloc::{AllocError, Global};
use wh_ast::{Expr, FromItem, MergeClause};
use wh_bind::{BoundSource, bind_source, copied_columns, source_name};
use wh_bound_change::{BoundChange, BoundClause, Modification};
use wh_core_bind::condition;
use wh_expr_bind::{Entry, Findings};
use wh_naming::Named;
use wh_scalar::Scalar;
use wh_value::Text;

/// MERGE into a target, which expressions see by that name.
#[tactic(auto, unfolding(wh_bind::specs::View::source_part))]
pub(crate) fn merge(
    alloc: Global,
    names: &[Named<'_>],
    target: Target<'_>,
    name: &Text,
    source: &FromItem,
    on: &Expr,
    clauses: &[MergeClause],
) -> Result<Boxed<Checked>, AllocError>
    ensures { IfOk result (λ c. checked_in c ≡ naming.bound_merge (target_in target.entry) name.now
        (naming.source_part source.now) (map named_of names.now) on.now clauses.now) }
{
    let rows = bind_source(alloc, names, 0, source)?;
    let source = source_name(source);
    let parts = merge_parts(alloc, name, &target, source, rows.get(), on, clauses)?;
    merged(alloc, target, rows, parts)
}

/// ON and the clauses, what is found wrong in them, and what is found wrong with the source's name.
#[derive(Drop)]
pub(crate) struct MergeParts {
    pub on: Scalar,
    pub clauses: Vec<BoundClause>,
    pub findings: Findings,
    pub taken: Findings,
}

fn merge_parts(
    alloc: Global,
    name: &Text,
    target: &Target<'_>,
    source_name: &Text,
    source: &BoundSource,
    on: &Expr,
    clauses: &[MergeClause],
) -> Result<MergeParts, AllocError>
    ensures { IfOk result (λ p. merge_in (target_in target.now) (source_in source.now) p
        ≡ naming.merged_on (target_in target.now)
        (naming.target_entry name.now (target_in target.now))
        (source_entry source_name.now (source_in source.now))
        (source_in source.now) on.now clauses.now) }
{
    let both = both_entries(alloc, name, target, source_name, source)?;
    let taken = taken_findings(alloc, name, source_name)?;
    parts_over(alloc, target, &both, on, clauses, taken)
}

// The source has another name than the target.
fn taken_findings(alloc: Global, name: &Text, source: &Text) -> Result<Findings, AllocError>
    ensures { IfOk result (λ f. findings_of f
        ≡ wrong.taken_if (bytes_eq name.now source.now) name.now) }
{
    if name == source {
        Ok(Findings::taken(name.copy(alloc)?))
    } else {
        Ok(Findings::nothing())
    }
}

#[tactic(auto, unfolding(wh_bind::specs::View::source_in))]
fn both_entries(
    alloc: Global,
    name: &Text,
    target: &Target<'_>,
    source_name: &Text,
    source: &BoundSource,
) -> Result<Vec<Entry>, AllocError>
    ensures { IfOk result (λ es. entries_of es.items
        ≡ naming.target_entry name.now (target_in target.now)
        ∷ source_entry source_name.now (source_in source.now) ∷ []) }
{
    let mut both = target_entries(alloc, name, target)?;
    let name = source_name.copy(alloc)?;
    let columns = copied_columns(alloc, &source.columns)?;
    both.push(Entry { name, columns })?;
    Ok(both)
}

ghost use Rattle.std.specs.Prelude.{length};
ghost use Rattle.wh_dml_bind.specs.Steps.{first_of, second_of};

fn parts_over(
    alloc: Global,
    target: &Target<'_>,
    both: &[Entry],
    on: &Expr,
    clauses: &[MergeClause],
    taken: Findings,
) -> Result<MergeParts, AllocError>
    requires { length both.now ≡ 2 }
    ensures on { IfOk result (λ p. scalar_of p.on
        ≡ (select.plain (entries_of both.now) on.now).scalar) }
    ensures clauses { IfOk result (λ p. clauses_of p.clauses.items ≡ map
        (naming.bound_clause (target_in target.now).columns (first_of (entries_of both.now))
        (second_of (entries_of both.now))) clauses.now) }
    ensures findings { IfOk result (λ p. findings_of p.findings ≡ wrong.followed
        (select.condition_findings (select.plain (entries_of both.now) on.now))
        (naming.all_clause_findings (target_in target.now).columns
        (first_of (entries_of both.now)) (second_of (entries_of both.now)) clauses.now)) }
    ensures taken { IfOk result (λ p. findings_of p.taken ≡ findings_of taken) }
{
    let clauses = bound_clauses(alloc, target.columns, both, clauses)?;
    let on = condition(alloc, both, on)?;
    Ok(MergeParts {
        on: on.scalar,
        clauses: clauses.clauses,
        findings: on.findings.followed(clauses.findings),
        taken,
    })
}

#[tactic(auto, unfolding(crate::specs::View::checked_in, wh_bind::specs::View::source_in))]
fn merged(
    alloc: Global,
    target: Target<'_>,
    source: Boxed<BoundSource>,
    parts: MergeParts,
) -> Result<Boxed<Checked>, AllocError>
    ensures { IfOk result (λ c. checked_in c
        ≡ merge_in (target_in target.entry) (source_in source) parts) }
{
    let source = source.into_inner();
    let behind = parts
        .taken
        .followed(source.findings.followed(parts.findings));
    let findings = target.findings.followed(behind);
    let bound = BoundChange {
        target: target.id,
        change: Modification::Merge(source.query, parts.on, parts.clauses),
        sources: source.sources,
        is_wide: source.is_wide,
    };
    Boxed::new(alloc, Checked { bound, findings })
}

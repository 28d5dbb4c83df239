//! The clauses of MERGE.
ghost use Rattle.std.specs.Prelude.{◌≡◌, IfOk, option_map, option_to_list};
ghost use Rattle.wh_bound_change.specs.View.{clause_of, clauses_of};
ghost use Rattle.wh_dml.specs.Given.{Shows};
ghost use Rattle.wh_dml.specs.Steps.{choice, clause_at, clauses_at, inserts_by, matched_turns};
ghost use Rattle.wh_dml.specs.View.{turns_of};
ghost use Rattle.wh_effect.specs.Effect as meaning;
ghost use Rattle.wh_scalar.specs.View.{scalar_of};

use crate::turn::Turn;
use std::alloc::{AllocError, Global};
use wh_aggregate::values_on;
use wh_bound_change::BoundClause;
use wh_scalar::{EvalFault, Scalar};
use wh_value::Row;

/// The clauses after MATCHED.
pub(crate) fn matched_clauses<'a>(
    alloc: Global,
    clauses: &'a [BoundClause],
) -> Result<Vec<&'a BoundClause>, AllocError>
    ensures { IfOk result (λ found.
        clauses_at found.items ≡ meaning.matched_clauses (clauses_of clauses.now)) }
{
    let mut found = Vec::new(alloc);
    for clause in clauses {
        if is_matched(clause) {
            found.push(clause)?;
        }
    }
    Ok(found)
}

/// The clauses after NOT MATCHED.
pub(crate) fn unmatched_clauses<'a>(
    alloc: Global,
    clauses: &'a [BoundClause],
) -> Result<Vec<&'a BoundClause>, AllocError>
    ensures { IfOk result (λ found.
        clauses_at found.items ≡ meaning.unmatched_clauses (clauses_of clauses.now)) }
{
    let mut found = Vec::new(alloc);
    for clause in clauses {
        if !is_matched(clause) {
            found.push(clause)?;
        }
    }
    Ok(found)
}

fn is_matched(clause: &BoundClause) -> bool
    ensures { result ≡ meaning.is_matched (clause_of clause.now) }
{
    match clause {
        BoundClause::UpdateMatched(..) | BoundClause::DeleteMatched(_) => true,
        BoundClause::InsertUnmatched(..) => false,
    }
}

/// What becomes of the target's row of a pair on which ON is TRUE, if a clause is selected.
pub(crate) fn matched_turn(
    alloc: Global,
    clauses: &[&BoundClause],
    pair: &Row,
) -> Result<Option<Turn>, EvalFault>
    ensures { Shows (λ turn. turns_of (option_to_list turn)) result
        (matched_turns (clauses_at clauses.now) pair.now) }
{
    match chosen(alloc, clauses, pair)? {
        Some(BoundClause::UpdateMatched(_, parts)) => {
            Ok(Some(Turn::Becomes(values_on(alloc, parts, pair)?)))
        }
        Some(BoundClause::DeleteMatched(_)) => Ok(Some(Turn::Goes)),
        Some(BoundClause::InsertUnmatched(..)) | None => Ok(None),
    }
}

/// The row that is added for a source row that isn't matched, if a clause is selected.
pub(crate) fn inserted_row(
    alloc: Global,
    clauses: &[&BoundClause],
    row: &Row,
) -> Result<Option<Row>, EvalFault>
    ensures { Shows option_to_list result (inserts_by (clauses_at clauses.now) row.now) }
{
    match chosen(alloc, clauses, row)? {
        Some(BoundClause::InsertUnmatched(_, parts)) => Ok(Some(values_on(alloc, parts, row)?)),
        _ => Ok(None),
    }
}

// The first clause whose condition is TRUE. The conditions of the others are evaluated too.
fn chosen<'a>(
    alloc: Global,
    clauses: &[&'a BoundClause],
    row: &Row,
) -> Result<Option<&'a BoundClause>, EvalFault>
    ensures { Shows (option_map clause_at) result (choice (clauses_at clauses.now) row.now) }
{
    let mut found = None;
    for clause in clauses {
        let holds = condition_of(clause).holds(alloc, row)?;
        if holds && found.is_none() {
            found = Some(*clause);
        }
    }
    Ok(found)
}

fn condition_of(clause: &BoundClause) -> &Scalar
    ensures { scalar_of result.now ≡ meaning.condition_of (clause_of clause.now) }
{
    match clause {
        BoundClause::UpdateMatched(condition, _) => condition,
        BoundClause::DeleteMatched(condition) => condition,
        BoundClause::InsertUnmatched(condition, _) => condition,
    }
}

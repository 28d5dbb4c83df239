ghost use Rattle.std.specs.Prelude.{◌≡◌, ◌∷◌, ◌++◌, [], map, length, IfOk, OnOk};
ghost use Rattle.wh_value.specs.View.{column_of};
ghost use Rattle.wh_naming.specs.Findings as wrong;
ghost use Rattle.wh_naming.specs.Select as select;
ghost use Rattle.wh_naming.specs.Changes as naming;
ghost use Rattle.wh_expr_bind.specs.View.{entries_of, findings_of};
ghost use Rattle.wh_bound_change.specs.View.{clause_of, clauses_of};
ghost use Rattle.wh_dml_bind.specs.Steps.{first_of, second_of};

use crate::assignments::changed_row;
use crate::filters::condition_of;
use crate::findings::add_findings;
use crate::values::listed_row;
use sqlite_items::Items;
use std::alloc::{AllocError, Global};
use wh_ast::{Assignment, Expr, MergeClause};
use wh_bound_change::BoundClause;
use wh_expr_bind::{Entry, Findings};
use wh_value::{Column, Text};

/// The clauses of MERGE, and what is found wrong in them.
#[derive(Drop)]
pub(crate) struct Clauses {
    pub clauses: Vec<BoundClause>,
    pub findings: Findings,
}

impl Clauses {
    // Adds a clause.
    fn add(&mut self, one: Clause) -> Result<(), AllocError>
        ensures clauses { OnOk result (clauses_of self.new.clauses.items
            ≡ clauses_of self.old.clauses.items ++ clause_of one.clause ∷ []) }
        ensures findings { OnOk result (findings_of self.new.findings
            ≡ wrong.followed (findings_of self.old.findings) (findings_of one.findings)) }
    {
        add_findings(&mut self.findings, one.findings);
        self.clauses.push(one.clause)?;
        Ok(())
    }
}

/// The clauses over the entries of target and source.
pub(crate) fn bound_clauses(
    alloc: Global,
    columns: &[Column],
    both: &[Entry],
    clauses: &[MergeClause],
) -> Result<Clauses, AllocError>
    requires { length both.now ≡ 2 }
    ensures clauses { IfOk result (λ c. clauses_of c.clauses.items ≡ map
        (naming.bound_clause (map column_of columns.now) (first_of (entries_of both.now))
        (second_of (entries_of both.now))) clauses.now) }
    ensures findings { IfOk result (λ c. findings_of c.findings
        ≡ naming.all_clause_findings (map column_of columns.now) (first_of (entries_of both.now))
        (second_of (entries_of both.now)) clauses.now) }
{
    let mut bound = Clauses {
        clauses: Vec::new(alloc),
        findings: Findings::nothing(),
    };
    for clause in clauses {
        let one = bound_clause(alloc, columns, both, clause)?;
        bound.add(one)?;
    }
    Ok(bound)
}

/// A clause, and what is found wrong in it.
#[derive(Drop)]
struct Clause {
    clause: BoundClause,
    findings: Findings,
}

#[tactic(auto, using(crate::proofs::ClauseLemmas::two, crate::proofs::ClauseLemmas::second_alone))]
fn bound_clause(
    alloc: Global,
    columns: &[Column],
    both: &[Entry],
    clause: &MergeClause,
) -> Result<Clause, AllocError>
    requires { length both.now ≡ 2 }
    ensures clause { IfOk result (λ c. clause_of c.clause ≡ naming.bound_clause
        (map column_of columns.now) (first_of (entries_of both.now))
        (second_of (entries_of both.now)) clause.now) }
    ensures findings { IfOk result (λ c. findings_of c.findings ≡ naming.clause_findings
        (map column_of columns.now) (first_of (entries_of both.now))
        (second_of (entries_of both.now)) clause.now) }
{
    match clause {
        MergeClause::Update(filter, parts) => {
            update_matched(alloc, columns, both, filter, parts.as_slice())
        }
        MergeClause::Delete(filter) => delete_matched(alloc, both, filter),
        MergeClause::Insert(filter, listed, values) => {
            let source = &both[1..];
            insert_unmatched(alloc, columns, source, filter, listed, values.as_slice())
        }
    }
}

fn update_matched(
    alloc: Global,
    columns: &[Column],
    both: &[Entry],
    filter: &Option<Expr>,
    parts: &[Assignment],
) -> Result<Clause, AllocError>
    ensures clause { IfOk result (λ c. clause_of c.clause ≡ naming.UpdateMatched
        (naming.condition_of (entries_of both.now) filter.now)
        (naming.changed_row (map column_of columns.now) (entries_of both.now) parts.now)) }
    ensures findings { IfOk result (λ c. findings_of c.findings ≡ wrong.followed
        (select.filter_findings (entries_of both.now) filter.now)
        (naming.set_findings (map column_of columns.now) (entries_of both.now) parts.now)) }
{
    let row = changed_row(alloc, columns, both, parts)?;
    let filter = condition_of(alloc, both, filter)?;
    Ok(Clause {
        clause: BoundClause::UpdateMatched(filter.scalar, row.scalars),
        findings: filter.findings.followed(row.findings),
    })
}

fn delete_matched(
    alloc: Global,
    both: &[Entry],
    filter: &Option<Expr>,
) -> Result<Clause, AllocError>
    ensures clause { IfOk result (λ c. clause_of c.clause ≡ naming.DeleteMatched
        (naming.condition_of (entries_of both.now) filter.now)) }
    ensures findings { IfOk result (λ c. findings_of c.findings
        ≡ select.filter_findings (entries_of both.now) filter.now) }
{
    let filter = condition_of(alloc, both, filter)?;
    Ok(Clause {
        clause: BoundClause::DeleteMatched(filter.scalar),
        findings: filter.findings,
    })
}

fn insert_unmatched(
    alloc: Global,
    columns: &[Column],
    source: &[Entry],
    filter: &Option<Expr>,
    listed: &Option<Items<Text>>,
    values: &[Expr],
) -> Result<Clause, AllocError>
    ensures clause { IfOk result (λ c. clause_of c.clause ≡ naming.InsertUnmatched
        (naming.condition_of (entries_of source.now) filter.now)
        (naming.new_row (map column_of columns.now)
        (naming.given_places (map column_of columns.now) listed.now)
        (naming.typed_all (entries_of source.now) values.now)).scalars) }
    ensures findings { IfOk result (λ c. findings_of c.findings ≡ wrong.followed
        (select.filter_findings (entries_of source.now) filter.now)
        (wrong.followed (naming.given_findings (map column_of columns.now) listed.now)
        (naming.new_row (map column_of columns.now)
        (naming.given_places (map column_of columns.now) listed.now)
        (naming.typed_all (entries_of source.now) values.now)).findings)) }
{
    let row = listed_row(alloc, columns, listed, source, values)?;
    let filter = condition_of(alloc, source, filter)?;
    Ok(Clause {
        clause: BoundClause::InsertUnmatched(filter.scalar, row.scalars),
        findings: filter.findings.followed(row.findings),
    })
}

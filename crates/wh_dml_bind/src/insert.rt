ghost use Rattle.std.specs.Prelude.{◌≡◌, map, IfOk};
ghost use Rattle.wh_value.specs.View.{column_of};
ghost use Rattle.wh_algebra.specs.View.{scalars_of};
ghost use Rattle.wh_naming.specs.Changes as naming;
ghost use Rattle.wh_naming.specs.View.{named_of};
ghost use Rattle.wh_expr_bind.specs.View.{type_of_option, findings_of};
ghost use Rattle.wh_core_bind.specs.View.{query_in, output_of, outputs_of};
ghost use Rattle.wh_dml_bind.specs.View.{target_in, checked_in};

use crate::checked::Checked;
use crate::findings::mistyped_unless;
use crate::places::{fit_places, given_columns};
use crate::rows::new_row_from;
use crate::target::{Target, change_alone};
use crate::values::value_rows;
use sqlite_items::{Boxed, Items};
use std::alloc::{AllocError, Global};
use wh_ast::{Expr, Rows};
use wh_bind::bind_query;
use wh_bound_change::{BoundChange, Modification};
use wh_core_bind::{BoundQuery, Output, column_scalar};
use wh_expr_bind::Findings;
use wh_naming::Named;
use wh_scalar::Scalar;
use wh_value::{Column, ColumnType, Text};

/// INSERT of rows, with a list of columns or without.
#[tactic(auto, unfolding(wh_bind::specs::View::query_reading))]
pub(crate) fn insert(
    alloc: Global,
    names: &[Named<'_>],
    target: Target<'_>,
    listed: &Option<Items<Text>>,
    rows: &Rows,
) -> Result<Boxed<Checked>, AllocError>
    ensures { IfOk result (λ c. checked_in c ≡ naming.bound_rows (map named_of names.now)
        (target_in target.entry) listed.now rows.now) }
{
    match rows {
        Rows::Values(found) => insert_values(alloc, target, listed, found.as_slice()),
        Rows::Query(query) => {
            let query = bind_query(alloc, names, 0, query)?;
            insert_query(alloc, target, listed, query)
        }
    }
}

fn insert_values(
    alloc: Global,
    target: Target<'_>,
    listed: &Option<Items<Text>>,
    found: &[Items<Expr>],
) -> Result<Boxed<Checked>, AllocError>
    ensures { IfOk result (λ c. checked_in c
        ≡ naming.insert_values (target_in target.entry) listed.now
        (naming.value_rows (target_in target.entry).columns
        (naming.given_places (target_in target.entry).columns listed.now) found.now)) }
{
    let given = given_columns(alloc, target.columns, listed)?;
    let rows = value_rows(alloc, target.columns, &given.places, found)?;
    let findings = given.findings.followed(rows.findings);
    change_alone(alloc, target, Modification::InsertRows(rows.rows), findings)
}

#[tactic(auto, unfolding(crate::specs::View::checked_in, wh_core_bind::specs::View::query_in))]
fn insert_query(
    alloc: Global,
    target: Target<'_>,
    listed: &Option<Items<Text>>,
    query: Boxed<BoundQuery>,
) -> Result<Boxed<Checked>, AllocError>
    ensures { IfOk result (λ c. checked_in c
        ≡ naming.insert_query (target_in target.entry) listed.now (query_in query)) }
{
    let row = query_row(alloc, target.columns, listed, &query.get().outputs)?;
    let query = query.into_inner();
    let in_query = mistyped_unless(row.fits, query.findings);
    let findings = target.findings.followed(row.findings.followed(in_query));
    let bound = BoundChange {
        target: target.id,
        change: Modification::InsertQuery(query.query, row.scalars),
        sources: query.sources,
        is_wide: query.is_wide,
    };
    Boxed::new(alloc, Checked { bound, findings })
}

/// The new row for each row of a query, what is found wrong with the list of columns, and whether
/// the query's columns fit those of the list.
#[derive(Drop)]
struct QueryRow {
    scalars: Vec<Scalar>,
    findings: Findings,
    fits: bool,
}

fn query_row(
    alloc: Global,
    columns: &[Column],
    listed: &Option<Items<Text>>,
    outputs: &[Output],
) -> Result<QueryRow, AllocError>
    ensures scalars { IfOk result (λ r. scalars_of r.scalars.items
        ≡ naming.row_from 0 (map column_of columns.now)
        (naming.given_places (map column_of columns.now) listed.now)
        (naming.outputs_from 0 (outputs_of outputs.now))) }
    ensures findings { IfOk result (λ r. findings_of r.findings
        ≡ naming.given_findings (map column_of columns.now) listed.now) }
    ensures fits { IfOk result (λ r. r.fits
        ≡ naming.fit_places (naming.given_places (map column_of columns.now) listed.now)
        (naming.output_types (outputs_of outputs.now))) }
{
    let types = output_types(alloc, outputs)?;
    let outputs = output_scalars(alloc, outputs)?;
    let given = given_columns(alloc, columns, listed)?;
    let fits = fit_places(&given.places, &types);
    let scalars = new_row_from(alloc, columns, &given.places, outputs)?;
    Ok(QueryRow {
        scalars,
        findings: given.findings,
        fits,
    })
}

fn output_types(alloc: Global, outputs: &[Output]) -> Result<Vec<Option<ColumnType>>, AllocError>
    ensures { IfOk result (λ ts. map type_of_option ts.items
        ≡ naming.output_types (outputs_of outputs.now)) }
{
    let mut types = Vec::new(alloc);
    for output in outputs {
        types.push(Some(output_type(output)))?;
    }
    Ok(types)
}

ghost use Rattle.wh_value.specs.View.{type_of};
ghost use Rattle.wh_naming.specs.Select as select;

// A column that is NULL in every core is a VARCHAR.
fn output_type(output: &Output) -> ColumnType
    ensures { type_of result ≡ (select.column_of (output_of output.now)).column_type }
{
    match output.type_of {
        Some(column_type) => column_type,
        None => ColumnType::Varchar,
    }
}

fn output_scalars(alloc: Global, outputs: &[Output]) -> Result<Vec<Scalar>, AllocError>
    ensures { IfOk result (λ ss. scalars_of ss.items
        ≡ naming.outputs_from 0 (outputs_of outputs.now)) }
{
    let mut scalars = Vec::new(alloc);
    for place in 0..outputs.len() {
        scalars.push(column_scalar(place)?)?;
    }
    Ok(scalars)
}

ghost use Rattle.std.specs.Prelude.{◌≡◌, ◌∷◌, ◌++◌, ◌&&◌, [], map, IfOk, OnOk};
ghost use Rattle.wh_scalar.specs.View.{scalar_of};
ghost use Rattle.wh_value.specs.View.{column_of};
ghost use Rattle.wh_algebra.specs.View.{scalars_of};
ghost use Rattle.wh_naming.specs.Findings as wrong;
ghost use Rattle.wh_naming.specs.Changes as naming;
ghost use Rattle.wh_expr_bind.specs.View.{entries_of, findings_of};
ghost use Rattle.wh_bound_change.specs.View.{rows_of};
ghost use Rattle.wh_dml_bind.specs.View.{places_of, row_in};

use crate::findings::{add_findings, mistyped_unless};
use crate::places::{fits_at, given_columns};
use crate::rows::new_row_from;
use sqlite_items::Items;
use std::alloc::{AllocError, Global};
use wh_ast::Expr;
use wh_expr_bind::{Entry, Findings, Place, Typed, typed};
use wh_scalar::Scalar;
use wh_value::{Column, Text};

/// Values, whether they are one for each place, each of its column's type, and what is found wrong
/// in them.
#[derive(Drop)]
struct Values {
    scalars: Vec<Scalar>,
    fits: bool,
    findings: Findings,
}

impl Values {
    // Adds a value.
    fn add(&mut self, fits: bool, x: Typed) -> Result<(), AllocError>
        ensures scalars { OnOk result (scalars_of self.new.scalars.items
            ≡ scalars_of self.old.scalars.items ++ scalar_of x.scalar ∷ []) }
        ensures fits { OnOk result (self.new.fits ≡ (self.old.fits && fits)) }
        ensures findings { OnOk result (findings_of self.new.findings
            ≡ wrong.followed (findings_of self.old.findings) (findings_of x.findings)) }
    {
        self.fits &= fits;
        add_findings(&mut self.findings, x.findings);
        self.scalars.push(x.scalar)?;
        Ok(())
    }
}

fn typed_all(
    alloc: Global,
    places: &[Option<Place>],
    entries: &[Entry],
    values: &[Expr],
) -> Result<Values, AllocError>
    ensures scalars { IfOk result (λ v. scalars_of v.scalars.items
        ≡ map (λ x. x.scalar) (naming.typed_all (entries_of entries.now) values.now)) }
    ensures fits { IfOk result (λ v. v.fits ≡ naming.fit_places (places_of places.now)
        (map (λ x. x.type_of) (naming.typed_all (entries_of entries.now) values.now))) }
    ensures findings { IfOk result (λ v. findings_of v.findings
        ≡ naming.all_findings (naming.typed_all (entries_of entries.now) values.now)) }
{
    let mut all = Values {
        scalars: Vec::with_capacity(alloc, values.len())?,
        fits: true,
        findings: Findings::nothing(),
    };
    for index in 0..values.len() {
        let x = typed(alloc, &values[index], entries, false, 0)?;
        all.add(fits_at(places, index, x.type_of), x)?;
    }
    all.fits &= places.len() <= values.len();
    Ok(all)
}

/// A row of values with a scalar for each column of the target, and what is found wrong in it.
#[derive(Drop)]
pub(crate) struct NewRow {
    pub scalars: Vec<Scalar>,
    pub findings: Findings,
}

pub(crate) fn new_row(
    alloc: Global,
    columns: &[Column],
    places: &[Option<Place>],
    entries: &[Entry],
    values: &[Expr],
) -> Result<NewRow, AllocError>
    ensures { IfOk result (λ r. row_in r ≡ naming.new_row (map column_of columns.now)
        (places_of places.now) (naming.typed_all (entries_of entries.now) values.now)) }
{
    let values = typed_all(alloc, places, entries, values)?;
    let findings = mistyped_unless(values.fits, values.findings);
    let scalars = new_row_from(alloc, columns, places, values.scalars)?;
    Ok(NewRow { scalars, findings })
}

/// A new row of values for the columns of a list, or without one for all of them.
pub(crate) fn listed_row(
    alloc: Global,
    columns: &[Column],
    listed: &Option<Items<Text>>,
    entries: &[Entry],
    values: &[Expr],
) -> Result<NewRow, AllocError>
    ensures scalars { IfOk result (λ r. scalars_of r.scalars.items
        ≡ (naming.new_row (map column_of columns.now)
        (naming.given_places (map column_of columns.now) listed.now)
        (naming.typed_all (entries_of entries.now) values.now)).scalars) }
    ensures findings { IfOk result (λ r. findings_of r.findings
        ≡ wrong.followed (naming.given_findings (map column_of columns.now) listed.now)
        (naming.new_row (map column_of columns.now)
        (naming.given_places (map column_of columns.now) listed.now)
        (naming.typed_all (entries_of entries.now) values.now)).findings) }
{
    let given = given_columns(alloc, columns, listed)?;
    let row = new_row(alloc, columns, &given.places, entries, values)?;
    Ok(NewRow {
        scalars: row.scalars,
        findings: given.findings.followed(row.findings),
    })
}

/// The rows of VALUES, and what is found wrong in them.
#[derive(Drop)]
pub(crate) struct NewRows {
    pub rows: Vec<Vec<Scalar>>,
    pub findings: Findings,
}

impl NewRows {
    // Adds a row.
    fn add(&mut self, row: NewRow) -> Result<(), AllocError>
        ensures rows { OnOk result (rows_of self.new.rows.items
            ≡ rows_of self.old.rows.items ++ scalars_of row.scalars.items ∷ []) }
        ensures findings { OnOk result (findings_of self.new.findings
            ≡ wrong.followed (findings_of self.old.findings) (findings_of row.findings)) }
    {
        add_findings(&mut self.findings, row.findings);
        self.rows.push(row.scalars)?;
        Ok(())
    }
}

pub(crate) fn value_rows(
    alloc: Global,
    columns: &[Column],
    places: &[Option<Place>],
    found: &[Items<Expr>],
) -> Result<NewRows, AllocError>
    ensures rows { IfOk result (λ r. rows_of r.rows.items ≡ map (λ row. row.scalars)
        (naming.value_rows (map column_of columns.now) (places_of places.now) found.now)) }
    ensures findings { IfOk result (λ r. findings_of r.findings ≡ naming.row_findings
        (naming.value_rows (map column_of columns.now) (places_of places.now) found.now)) }
{
    let mut rows = NewRows {
        rows: Vec::with_capacity(alloc, found.len())?,
        findings: Findings::nothing(),
    };
    for values in found {
        let row = new_row(alloc, columns, places, &[], values.as_slice())?;
        rows.add(row)?;
    }
    Ok(rows)
}

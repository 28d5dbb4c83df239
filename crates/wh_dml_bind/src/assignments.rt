ghost use Rattle.std.specs.Prelude.{◌≡◌, ◌<◌, ◌+◌, ◌∷◌, ◌++◌, [], map, length, drop, option_map};
ghost use Rattle.std.specs.Prelude.{IfOk, OnOk};
ghost use Rattle.wh_value.specs.View.{column_of};
ghost use Rattle.wh_scalar.specs.View.{scalar_of};
ghost use Rattle.wh_algebra.specs.View.{scalars_of};
ghost use Rattle.wh_naming.specs.Findings as wrong;
ghost use Rattle.wh_naming.specs.Select as select;
ghost use Rattle.wh_naming.specs.Changes as naming;
ghost use Rattle.wh_expr_bind.specs.View.{entries_of, place_of, findings_of};
ghost use Rattle.wh_dml_bind.specs.View.{places_of};

use crate::findings::{add_findings, mistyped_unless};
use crate::places::{name_findings, place_in, place_type};
use crate::rows::changed_from;
use std::alloc::{AllocError, Global};
use wh_ast::Assignment;
use wh_expr_bind::{Entry, Findings, Place, alike, typed};
use wh_scalar::Scalar;
use wh_value::{Column, Text};

/// The columns of a row that SET changes, and what is found wrong with it.
#[derive(Drop)]
pub(crate) struct ChangedRow {
    pub scalars: Vec<Scalar>,
    pub findings: Findings,
}

/// What SET makes of a row.
pub(crate) fn changed_row(
    alloc: Global,
    columns: &[Column],
    entries: &[Entry],
    parts: &[Assignment],
) -> Result<ChangedRow, AllocError>
    ensures scalars { IfOk result (λ r. scalars_of r.scalars.items
        ≡ naming.changed_row (map column_of columns.now) (entries_of entries.now) parts.now) }
    ensures findings { IfOk result (λ r. findings_of r.findings
        ≡ naming.set_findings (map column_of columns.now) (entries_of entries.now) parts.now) }
{
    let set = set_columns(alloc, columns, entries, parts)?;
    let scalars = changed_from(alloc, columns, &set.places, &set.scalars)?;
    Ok(ChangedRow {
        scalars,
        findings: set.findings,
    })
}

/// Columns with their values, and what is found wrong with them.
#[derive(Drop)]
struct SetColumns {
    places: Vec<Option<Place>>,
    scalars: Vec<Scalar>,
    findings: Findings,
}

impl SetColumns {
    // Adds a column.
    fn add(&mut self, set: SetColumn) -> Result<(), AllocError>
        ensures places { OnOk result (places_of self.new.places.items
            ≡ places_of self.old.places.items ++ option_map place_of set.place ∷ []) }
        ensures scalars { OnOk result (scalars_of self.new.scalars.items
            ≡ scalars_of self.old.scalars.items ++ scalar_of set.scalar ∷ []) }
        ensures findings { OnOk result (findings_of self.new.findings
            ≡ wrong.followed (findings_of self.old.findings) (findings_of set.findings)) }
    {
        add_findings(&mut self.findings, set.findings);
        self.scalars.push(set.scalar)?;
        self.places.push(set.place)?;
        Ok(())
    }
}

fn set_columns(
    alloc: Global,
    columns: &[Column],
    entries: &[Entry],
    parts: &[Assignment],
) -> Result<SetColumns, AllocError>
    ensures places { IfOk result (λ s. places_of s.places.items
        ≡ map (λ part. naming.place_in (map column_of columns.now) part.column) parts.now) }
    ensures scalars { IfOk result (λ s. scalars_of s.scalars.items
        ≡ map (λ part. (select.plain (entries_of entries.now) part.value).scalar) parts.now) }
    ensures findings { IfOk result (λ s. findings_of s.findings
        ≡ naming.set_findings (map column_of columns.now) (entries_of entries.now) parts.now) }
{
    let mut all = SetColumns {
        places: Vec::new(alloc),
        scalars: Vec::new(alloc),
        findings: Findings::nothing(),
    };
    for index in 0..parts.len() {
        let part = &parts[index];
        let set = set_column(alloc, columns, entries, part, parts_behind(parts, index))?;
        all.add(set)?;
    }
    Ok(all)
}

fn parts_behind(parts: &[Assignment], index: usize) -> &[Assignment]
    requires { index < length parts.now }
    ensures { result.now ≡ drop (index + 1) parts.now }
{
    &parts[index + 1..]
}

/// A column with its value.
#[derive(Drop)]
struct SetColumn {
    place: Option<Place>,
    scalar: Scalar,
    findings: Findings,
}

fn set_column(
    alloc: Global,
    columns: &[Column],
    entries: &[Entry],
    part: &Assignment,
    behind: &[Assignment],
) -> Result<SetColumn, AllocError>
    ensures place { IfOk result (λ s. option_map place_of s.place
        ≡ naming.place_in (map column_of columns.now) part.now.column) }
    ensures scalar { IfOk result (λ s. scalar_of s.scalar
        ≡ (select.plain (entries_of entries.now) part.now.value).scalar) }
    ensures findings { IfOk result (λ s. findings_of s.findings ≡ naming.part_findings
        (map column_of columns.now) (entries_of entries.now) part.now behind.now) }
{
    let place = place_in(columns, &part.column);
    let is_again = is_set_again(&part.column, behind);
    let column = name_findings(alloc, &part.column, place, is_again)?;
    let x = typed(alloc, &part.value, entries, false, 0)?;
    let fits = alike(place_type(place), x.type_of);
    let value = mistyped_unless(fits, x.findings);
    Ok(SetColumn {
        place,
        scalar: x.scalar,
        findings: column.followed(value),
    })
}

fn is_set_again(name: &Text, parts: &[Assignment]) -> bool
    ensures { result ≡ naming.is_set_again name.now parts.now }
{
    for part in parts {
        if part.column == *name {
            return true;
        }
    }
    false
}

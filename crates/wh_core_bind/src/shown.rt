ghost use Rattle.std.specs.Prelude.{◌≡◌, ◌++◌, map, OnOk, IfOk};
ghost use Rattle.wh_value.specs.View.{column_of};
ghost use Rattle.wh_algebra.specs.View.{scalars_of};
ghost use Rattle.wh_naming.specs.Select as naming;
ghost use Rattle.wh_core_bind.specs.View.{outputs_of, shown_in};
ghost use Rattle.wh_expr_bind.specs.View.{findings_of, typed_view};
ghost use Rattle.wh_naming.specs.Findings as wrong;
ghost use Rattle.wh_scalar.specs.View.{scalar_of};
ghost use Rattle.wh_meaning.specs.Scalar as meaning;

use crate::Output;
use std::alloc::{AllocError, Global};
use std::mem;
use wh_algebra::Call;
use wh_expr_bind::{Findings, Typed};
use wh_scalar::Scalar;
use wh_value::{Column, Text};

/// The columns that items give, and the calls in them.
#[derive(Debug, Drop)]
pub(crate) struct Shown {
    pub outputs: Vec<Output>,
    pub scalars: Vec<Scalar>,
    pub calls: Vec<Call>,
    pub has_star: bool,
    pub findings: Findings,
}

pub(crate) fn nothing_shown(alloc: Global) -> Shown
    ensures { shown_in result ≡ naming.nothing_shown }
{
    Shown {
        outputs: Vec::new(alloc),
        scalars: Vec::new(alloc),
        calls: Vec::new(alloc),
        has_star: false,
        findings: Findings::nothing(),
    }
}

/// Adds the columns of a star, the first of which has that place.
pub(crate) fn add_star(
    alloc: Global,
    shown: &mut Shown,
    from: usize,
    columns: &[Column],
) -> Result<(), AllocError>
    ensures { OnOk result (shown_in shown.new
        ≡ naming.with_columns (shown_in shown.old) from (map column_of columns.now)) }
{
    add_outputs(alloc, &mut shown.outputs, columns)?;
    add_places(&mut shown.scalars, from, columns)?;
    shown.has_star = true;
    Ok(())
}

fn add_outputs(
    alloc: Global,
    outputs: &mut Vec<Output>,
    columns: &[Column],
) -> Result<(), AllocError>
    ensures { OnOk result (outputs_of outputs.new.items
        ≡ outputs_of outputs.old.items ++ map naming.output_of (map column_of columns.now)) }
{
    for column in columns {
        outputs.push(Output {
            name: column.name.copy(alloc)?,
            type_of: Some(column.column_type),
        })?;
    }
    Ok(())
}

fn add_places(scalars: &mut Vec<Scalar>, from: usize, columns: &[Column]) -> Result<(), AllocError>
    ensures { OnOk result (scalars_of scalars.new.items
        ≡ scalars_of scalars.old.items ++ naming.places_from from (map column_of columns.now)) }
{
    let mut place = from;
    for _column in columns {
        scalars.push(column_scalar(place)?)?;
        place = behind(place)?;
    }
    Ok(())
}

/// A column by its place. More columns than a `u32` counts are more than memory holds.
pub fn column_scalar(place: usize) -> Result<Scalar, AllocError>
    ensures { IfOk result (λ column. scalar_of column ≡ meaning.Column place) }
{
    let Ok(place) = u32::try_from(place) else {
        return Err(AllocError);
    };
    Ok(Scalar::Column(place))
}

ghost use Rattle.std.specs.Prelude.{suc};

fn behind(place: usize) -> Result<usize, AllocError>
    ensures { IfOk result (λ next. next ≡ suc place) }
{
    place.checked_add(1).ok_or(AllocError)
}

/// Adds a star of no entry, or of several.
pub(crate) fn add_unknown(alloc: Global, shown: &mut Shown, name: &Text) -> Result<(), AllocError>
    ensures { OnOk result (shown_in shown.new
        ≡ naming.with_span (shown_in shown.old) name.now None) }
{
    let name = name.copy(alloc)?;
    shown.has_star = true;
    add(&mut shown.findings, Findings::unknown_column(name));
    Ok(())
}

/// Adds an expression under its name.
pub(crate) fn add_item(shown: &mut Shown, name: Text, x: Typed) -> Result<(), AllocError>
    ensures { OnOk result (shown_in shown.new
        ≡ naming.with_item (shown_in shown.old) name (typed_view x)) }
{
    add(&mut shown.findings, x.findings);
    shown.scalars.push(x.scalar)?;
    let mut calls = x.calls;
    shown.calls.append(&mut calls)?;
    shown.outputs.push(Output {
        name,
        type_of: x.type_of,
    })?;
    Ok(())
}

fn add(findings: &mut Findings, next: Findings)
    ensures { findings_of findings.new
        ≡ wrong.followed (findings_of findings.old) (findings_of next) }
{
    let found = mem::replace(findings, Findings::nothing());
    *findings = found.followed(next);
}

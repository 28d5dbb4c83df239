ghost use Rattle.std.specs.Prelude.{◌≡◌, true, length, map, option_map, unwrap_or, IfOk};
ghost use Rattle.std.specs.Option.{option_copied};
ghost use Rattle.wh_value.specs.Value as values;
ghost use Rattle.wh_value.specs.View.{column_of};
ghost use Rattle.wh_meaning.specs.Scalar as meaning;
ghost use Rattle.wh_scalar.specs.View.{scalar_of};
ghost use Rattle.wh_algebra.specs.View.{scalars_of};
ghost use Rattle.wh_naming.specs.Changes as naming;
ghost use Rattle.wh_expr_bind.specs.View.{place_of};
ghost use Rattle.wh_dml_bind.specs.View.{places_of};
ghost use Rattle.wh_dml_bind.specs.Steps.{given, are_in_order};

use sqlite_items::at;
use std::alloc::{AllocError, Global};
use wh_core_bind::column_scalar;
use wh_expr_bind::Place;
use wh_scalar::Scalar;
use wh_value::{Column, Value};

/// A new row's columns, NULL where nothing is given. Where all of them are given in their order,
/// the scalars are moved.
pub(crate) fn new_row_from(
    alloc: Global,
    columns: &[Column],
    places: &[Option<Place>],
    scalars: Vec<Scalar>,
) -> Result<Vec<Scalar>, AllocError>
    ensures { IfOk result (λ row. scalars_of row.items ≡ naming.row_from 0
        (map column_of columns.now) (places_of places.now) (scalars_of scalars.items)) }
{
    if scalars.len() == columns.len() && are_all_in_order(places, scalars.len()) {
        return Ok(scalars);
    }
    row_from(alloc, columns, places, &scalars)
}

// Whether that many columns are given, each at its own place.
fn are_all_in_order(places: &[Option<Place>], count: usize) -> bool
    ensures in_order { result ≡ true → are_in_order 0 (places_of places.now) ≡ true }
    ensures count { result ≡ true → length places.now ≡ count }
{
    if places.len() != count {
        return false;
    }
    for index in 0..places.len() {
        if !is_at(index, places[index]) {
            return false;
        }
    }
    true
}

fn row_from(
    alloc: Global,
    columns: &[Column],
    places: &[Option<Place>],
    scalars: &[Scalar],
) -> Result<Vec<Scalar>, AllocError>
    ensures { IfOk result (λ row. scalars_of row.items ≡ naming.row_from 0
        (map column_of columns.now) (places_of places.now) (scalars_of scalars.now)) }
{
    let mut row = Vec::new(alloc);
    for place in 0..columns.len() {
        row.push(given_or_null(alloc, given(place, places, scalars))?)?;
    }
    Ok(row)
}

/// A changed row's columns, as they were where nothing is given.
pub(crate) fn changed_from(
    alloc: Global,
    columns: &[Column],
    places: &[Option<Place>],
    scalars: &[Scalar],
) -> Result<Vec<Scalar>, AllocError>
    ensures { IfOk result (λ row. scalars_of row.items ≡ naming.changed_from 0
        (map column_of columns.now) (places_of places.now) (scalars_of scalars.now)) }
{
    let mut row = Vec::new(alloc);
    for place in 0..columns.len() {
        row.push(given_or_kept(alloc, given(place, places, scalars), place)?)?;
    }
    Ok(row)
}

// What the column at a place is given.
fn given<'a>(place: usize, places: &[Option<Place>], scalars: &'a [Scalar]) -> Option<&'a Scalar>
    ensures { option_map scalar_of (option_copied result)
        ≡ given place (places_of places.now) (scalars_of scalars.now) }
{
    for index in 0..places.len() {
        if is_at(place, places[index]) {
            return at(scalars, index);
        }
    }
    None
}

fn is_at(place: usize, given: Option<Place>) -> bool
    ensures { result ≡ naming.is_at place (option_map place_of given) }
{
    match given {
        Some(given) => given.place == place,
        None => false,
    }
}

fn given_or_null(alloc: Global, given: Option<&Scalar>) -> Result<Scalar, AllocError>
    ensures { IfOk result (λ s. scalar_of s ≡ unwrap_or
        (option_map scalar_of (option_copied given.entry)) (meaning.Const values.Null)) }
{
    match given {
        Some(scalar) => scalar.copy(alloc),
        None => Ok(Scalar::Const(Value::Null)),
    }
}

fn given_or_kept(alloc: Global, given: Option<&Scalar>, place: usize) -> Result<Scalar, AllocError>
    ensures { IfOk result (λ s. scalar_of s ≡ unwrap_or
        (option_map scalar_of (option_copied given.entry)) (meaning.Column place)) }
{
    match given {
        Some(scalar) => scalar.copy(alloc),
        None => column_scalar(place),
    }
}

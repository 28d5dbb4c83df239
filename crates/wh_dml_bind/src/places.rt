ghost use Rattle.std.specs.Prelude.{◌≡◌, ◌<◌, ◌+◌, map, length, drop, option_map, IfOk};
ghost use Rattle.wh_value.specs.View.{column_of};
ghost use Rattle.wh_naming.specs.Changes as naming;
ghost use Rattle.wh_expr_bind.specs.View.{place_of, type_of_option, findings_of};
ghost use Rattle.wh_dml_bind.specs.View.{places_of};
ghost use Rattle.wh_dml_bind.specs.Steps.{fits_at};

use sqlite_items::{Items, at};
use std::alloc::{AllocError, Global};
use wh_expr_bind::{Findings, Place, alike};
use wh_value::{Column, ColumnType, Text};

/// The places of the columns that a statement gives values, and what is found wrong with its list.
#[derive(Drop)]
pub(crate) struct GivenColumns {
    pub places: Vec<Option<Place>>,
    pub findings: Findings,
}

/// The columns of a statement's list, or else all of them.
pub(crate) fn given_columns(
    alloc: Global,
    columns: &[Column],
    listed: &Option<Items<Text>>,
) -> Result<GivenColumns, AllocError>
    ensures places { IfOk result (λ g. places_of g.places.items
        ≡ naming.given_places (map column_of columns.now) listed.now) }
    ensures findings { IfOk result (λ g. findings_of g.findings
        ≡ naming.given_findings (map column_of columns.now) listed.now) }
{
    let findings = given_findings(alloc, columns, listed)?;
    let places = given_places(alloc, columns, listed)?;
    Ok(GivenColumns { places, findings })
}

fn given_places(
    alloc: Global,
    columns: &[Column],
    listed: &Option<Items<Text>>,
) -> Result<Vec<Option<Place>>, AllocError>
    ensures { IfOk result (λ ps. places_of ps.items
        ≡ naming.given_places (map column_of columns.now) listed.now) }
{
    match listed {
        Some(names) => listed_places(alloc, columns, names.as_slice()),
        None => all_places(alloc, columns),
    }
}

fn all_places(alloc: Global, columns: &[Column]) -> Result<Vec<Option<Place>>, AllocError>
    ensures { IfOk result (λ ps. places_of ps.items
        ≡ naming.places_from 0 (map column_of columns.now)) }
{
    let mut places = Vec::new(alloc);
    for place in 0..columns.len() {
        let column_type = columns[place].column_type;
        places.push(Some(Place { place, column_type }))?;
    }
    Ok(places)
}

fn listed_places(
    alloc: Global,
    columns: &[Column],
    names: &[Text],
) -> Result<Vec<Option<Place>>, AllocError>
    ensures { IfOk result (λ ps. places_of ps.items
        ≡ map (naming.place_in (map column_of columns.now)) names.now) }
{
    let mut places = Vec::new(alloc);
    for name in names {
        places.push(place_in(columns, name))?;
    }
    Ok(places)
}

/// The place of the one column of a name.
#[tactic(auto, using(crate::proofs::PlaceLemmas::place_in_is))]
pub(crate) fn place_in(columns: &[Column], name: &Text) -> Option<Place>
    ensures { option_map place_of result
        ≡ naming.place_in (map column_of columns.now) name.now }
{
    let mut found: Option<Place> = None;
    for place in 0..columns.len() {
        let column = &columns[place];
        if column.name == *name {
            if found.is_some() {
                return None;
            }
            let column_type = column.column_type;
            found = Some(Place { place, column_type });
        }
    }
    found
}

// What is found wrong with a list of columns.
fn given_findings(
    alloc: Global,
    columns: &[Column],
    listed: &Option<Items<Text>>,
) -> Result<Findings, AllocError>
    ensures { IfOk result (λ f. findings_of f
        ≡ naming.given_findings (map column_of columns.now) listed.now) }
{
    match listed {
        Some(names) => list_findings(alloc, columns, names.as_slice()),
        None => Ok(Findings::nothing()),
    }
}

fn list_findings(alloc: Global, columns: &[Column], names: &[Text]) -> Result<Findings, AllocError>
    ensures { IfOk result (λ f. findings_of f
        ≡ naming.list_findings (map column_of columns.now) names.now) }
{
    let mut findings = Findings::nothing();
    for place in 0..names.len() {
        let name = &names[place];
        let is_again = comes_again(name, names_behind(names, place));
        let found = name_findings(alloc, name, place_in(columns, name), is_again)?;
        findings = findings.followed(found);
    }
    Ok(findings)
}

fn names_behind(names: &[Text], place: usize) -> &[Text]
    requires { place < length names.now }
    ensures { result.now ≡ drop (place + 1) names.now }
{
    &names[place + 1..]
}

fn comes_again(name: &Text, names: &[Text]) -> bool
    ensures { result ≡ naming.names_again name.now names.now }
{
    for other in names {
        if other == name {
            return true;
        }
    }
    false
}

ghost use Rattle.wh_naming.specs.Findings as wrong;

/// A column's name stands for one column, and doesn't come again.
pub(crate) fn name_findings(
    alloc: Global,
    name: &Text,
    place: Option<Place>,
    is_again: bool,
) -> Result<Findings, AllocError>
    ensures { IfOk result (λ f. findings_of f ≡ wrong.followed
        (naming.place_findings name.now (option_map place_of place))
        (wrong.taken_if is_again name.now)) }
{
    let unknown = match place {
        Some(_) => Findings::nothing(),
        None => Findings::unknown_column(name.copy(alloc)?),
    };
    if is_again {
        Ok(unknown.followed(Findings::taken(name.copy(alloc)?)))
    } else {
        Ok(unknown.followed(Findings::nothing()))
    }
}

/// Whether there are as many values as columns, each of its column's type.
pub(crate) fn fit_places(places: &[Option<Place>], types: &[Option<ColumnType>]) -> bool
    ensures { result ≡ naming.fit_places (places_of places.now) (map type_of_option types.now) }
{
    if places.len() != types.len() {
        return false;
    }
    for index in 0..places.len() {
        if !alike(place_type(places[index]), types[index]) {
            return false;
        }
    }
    true
}

/// Whether a value of that type fits the place at an index among the places, if there is one.
pub(crate) fn fits_at(places: &[Option<Place>], index: usize, type_of: Option<ColumnType>) -> bool
    ensures { result ≡ fits_at (places_of places.now) index (type_of_option type_of) }
{
    match at(places, index) {
        Some(place) => alike(place_type(*place), type_of),
        None => false,
    }
}

/// The type of the column at a place.
pub(crate) fn place_type(place: Option<Place>) -> Option<ColumnType>
    ensures { type_of_option result ≡ naming.place_type (option_map place_of place) }
{
    match place {
        Some(place) => Some(place.column_type),
        None => None,
    }
}

//! The columns that a name may stand for.
ghost use Rattle.std.specs.Prelude.{◌≡◌, ◌++◌, map, IfOk, OnOk, option_map};
ghost use Rattle.wh_value.specs.View.{column_of};
ghost use Rattle.wh_naming.specs.Scope as naming;
ghost use Rattle.wh_expr_bind.specs.View.{entry_of, entries_of, place_of};

use crate::Entry;
use crate::count::counted;
use std::alloc::{AllocError, Global};
use wh_value::{Column, ColumnType, Text};

/// A place among the columns of all entries, from 0, and the type there.
#[derive(Clone, Copy, Debug)]
pub struct Place {
    pub place: usize,
    pub column_type: ColumnType,
}

/// The place of the one column of a name. None where no column has it, or several have it.
#[tactic(auto, unfolding(wh_naming::specs::Scope::column_at))]
pub fn column_at(
    alloc: Global,
    entry: &Option<Text>,
    name: &Text,
    entries: &[Entry],
) -> Result<Option<Place>, AllocError>
    ensures { IfOk result (λ found. option_map place_of found
        ≡ naming.column_at entry.now name.now (entries_of entries.now)) }
{
    let places = places_of(alloc, entry, name, entries)?;
    match places.as_slice() {
        [place] => Ok(Some(*place)),
        _ => Ok(None),
    }
}

fn places_of(
    alloc: Global,
    entry: &Option<Text>,
    name: &Text,
    entries: &[Entry],
) -> Result<Vec<Place>, AllocError>
    ensures { IfOk result (λ places. map place_of places.items
        ≡ naming.places_of entry.now name.now 0 (entries_of entries.now)) }
{
    let mut places = Vec::new(alloc);
    let mut from: usize = 0;
    for one in entries {
        if may_be_of(entry, one) {
            add_places(&mut places, name, from, one.columns.as_slice())?;
        }
        from = counted(from, one.columns.len())?;
    }
    Ok(places)
}

fn may_be_of(entry: &Option<Text>, one: &Entry) -> bool
    ensures { result ≡ naming.may_be_of entry.now (entry_of one.now) }
{
    match entry {
        Some(name) => one.name == *name,
        None => true,
    }
}

// Adds the columns of that name, the first of which has that place.
fn add_places(
    places: &mut Vec<Place>,
    name: &Text,
    from: usize,
    columns: &[Column],
) -> Result<(), AllocError>
    ensures { OnOk result (map place_of places.new.items
        ≡ map place_of places.old.items
        ++ naming.places_among name.now from (map column_of columns.now)) }
{
    for (index, column) in columns.iter().enumerate() {
        if column.name == *name {
            let place = counted(from, index)?;
            places.push(Place {
                place,
                column_type: column.column_type,
            })?;
        }
    }
    Ok(())
}

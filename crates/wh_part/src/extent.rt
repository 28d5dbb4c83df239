//! What is known of a column's values so far.
ghost use Rattle.std.specs.Prelude.{◌≡◌};
ghost use Rattle.wh_value.specs.View.{type_of};
ghost use Rattle.wh_part.specs.Extent.{seen_value, types_of, both_types, fits_by};
ghost use Rattle.wh_part.specs.Extent.{extent_of, started, absorbed};

use crate::seen::{Seen, is_less};
use wh_value::ColumnType;

/// Which types all of some values fit. NULL fits every type.
#[derive(Debug, Clone, Copy)]
pub(crate) struct Types {
    pub number: bool,
    pub varchar: bool,
    pub boolean: bool,
}

/// Which types a value fits.
pub(crate) fn types_of(seen: Seen<'_>) -> Types
    ensures { result ≡ types_of (seen_value seen.entry) }
{
    Types {
        number: matches!(seen, Seen::Number(_) | Seen::Null),
        varchar: matches!(seen, Seen::Text(_) | Seen::Null),
        boolean: matches!(seen, Seen::Bool(_) | Seen::Null),
    }
}

/// Which types two groups of values fit.
fn both(x: Types, y: Types) -> Types
    ensures { result ≡ both_types x y }
{
    Types {
        number: x.number & y.number,
        varchar: x.varchar & y.varchar,
        boolean: x.boolean & y.boolean,
    }
}

/// Whether the values fit a type.
pub(crate) fn fits_by(types: Types, column_type: ColumnType) -> bool
    ensures { result ≡ fits_by types (type_of column_type) }
{
    match column_type {
        ColumnType::Number => types.number,
        ColumnType::Varchar => types.varchar,
        ColumnType::Boolean => types.boolean,
    }
}

/// The least and the greatest of some values, and which types all of them fit.
#[derive(Debug, Clone, Copy)]
pub(crate) struct Extent<'a> {
    pub least: Seen<'a>,
    pub greatest: Seen<'a>,
    pub types: Types,
}

/// Of one value.
pub(crate) fn started<'a>(seen: Seen<'a>) -> Extent<'a>
    ensures { extent_of result ≡ started (seen_value seen.entry) }
{
    Extent {
        least: seen,
        greatest: seen,
        types: types_of(seen),
    }
}

/// With one value more.
pub(crate) fn absorb<'a>(extent: &mut Extent<'a>, seen: Seen<'a>)
    ensures { extent_of extent.new ≡ absorbed (extent_of extent.old) (seen_value seen.entry) }
{
    if is_less(seen, extent.least) {
        extent.least = seen;
    }
    if is_less(extent.greatest, seen) {
        extent.greatest = seen;
    }
    extent.types = both(extent.types, types_of(seen));
}

//! The columns of a group's row.
ghost use Rattle.std.specs.Prelude.{◌≡◌, map, option_map, IfOk};
ghost use Rattle.std.specs.List.{position};
ghost use Rattle.wh_meaning.specs.Scalar.{Column};
ghost use Rattle.wh_naming.specs.Grouping as grouping;
ghost use Rattle.wh_scalar.specs.View.{scalar_of};

use crate::is_same;
use std::alloc::AllocError;
use wh_scalar::Scalar;

// The place of the first key that is this part.
pub(crate) fn key_of(keys: &[Scalar], part: &Scalar) -> Option<usize>
    ensures { result ≡ position (grouping.is_same (scalar_of part.now)) (map scalar_of keys.now) }
{
    first_same(keys, part)
}

fn first_same(keys: &[Scalar], part: &Scalar) -> Option<usize>
    ensures { result
        ≡ position (λ key. grouping.is_same (scalar_of part.now) (scalar_of key)) keys.now }
{
    keys.iter().position(|key| is_same(part, key))
}

// The column at a place. No list has as many columns as would pass its type.
pub(crate) fn column(place: usize) -> Result<Scalar, AllocError>
    ensures { IfOk result (λ found. scalar_of found ≡ Column place) }
{
    match u32::try_from(place) {
        Ok(place) => Ok(Scalar::Column(place)),
        Err(_) => Err(AllocError),
    }
}

// The column of a call, which stands behind the keys. Before `width` no call has its place.
pub(crate) fn call_column(
    keys: usize,
    width: usize,
    place: u32,
) -> Result<Option<Scalar>, AllocError>
    ensures { IfOk result (λ found. option_map scalar_of found
        ≡ grouping.call_column keys width place) }
{
    let Some(call) = (place as usize).checked_sub(width) else {
        return Ok(None);
    };
    match keys.checked_add(call) {
        Some(place) => Ok(Some(column(place)?)),
        None => Err(AllocError),
    }
}

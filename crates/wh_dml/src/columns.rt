//! Parts that are the columns of rows, each at its place: what they make of the rows are the rows.
ghost use Rattle.std.specs.Prelude.{◌≡◌, true, length, nat_eq, Some};
ghost use Rattle.std.specs.List.{list_all};
ghost use Rattle.wh_algebra.specs.View.{scalars_of};
ghost use Rattle.wh_effect.specs.Effect.{rows_over};

use wh_exec::are_columns;
use wh_scalar::Scalar;
use wh_value::Row;

/// Whether the parts are the columns of each of the rows.
pub(crate) fn are_all_columns(parts: &[Scalar], rows: &[Row]) -> bool
    ensures { result ≡ true → rows_over (scalars_of parts.now) rows.now ≡ Some rows.now }
{
    are_columns(parts) && have_width(rows, parts.len())
}

// Whether each row has that many columns.
fn have_width(rows: &[Row], width: usize) -> bool
    ensures { result ≡ list_all (λ row. nat_eq (length row) width) rows.now }
{
    for row in rows {
        if row.len() != width {
            return false;
        }
    }
    true
}

//! Values, rows and their order, and the bytes that replies and files are made of.
#![tactic(auto)]

mod bytes;
mod column;
mod comparison;
mod fits;
mod limit;
mod literal;
mod row;
mod text;
mod value;

pub use bytes::Bytes;
pub use column::{Column, ColumnType};
pub use comparison::Comparison;
pub use fits::row_fits;
pub use limit::{DAYS_OF_CHANGES, Limit, SESSIONS};
pub use literal::print_literal;
pub use row::{Row, cmp_rows, sort_rows};
pub use text::Text;
pub use value::{Value, cmp_values};

use wh_value::{ColumnType, Text};

/// A column of a query. None as type is that of NULL.
#[derive(Debug, Drop)]
pub struct Output {
    pub name: Text,
    pub type_of: Option<ColumnType>,
}

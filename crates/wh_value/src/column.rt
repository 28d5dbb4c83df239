use crate::Text;
use std::alloc::{AllocError, Global};

/// The type of a column.
#[derive(Clone, Copy, Debug, PartialEq, Eq)]
pub enum ColumnType {
    Number,
    Varchar,
    Boolean,
}

/// A column of a table.
#[derive(Debug, Drop)]
pub struct Column {
    pub name: Text,
    pub column_type: ColumnType,
}

impl Column {
    ghost use Rattle.std.specs.Prelude.{◌≡◌, IfOk};
    ghost use Rattle.wh_value.specs.View.{column_of};

    /// An equal column, with memory of its own.
    pub fn copy(&self, alloc: Global) -> Result<Column, AllocError>
        ensures { IfOk result (λ copy. column_of copy ≡ column_of self.now) }
    {
        let name = self.name.copy(alloc)?;
        let column_type = self.column_type;
        Ok(Column { name, column_type })
    }
}

use std::alloc::{AllocError, Global};
use wh_value::Row;

/// What becomes of a row, by its number: another row, or none where it goes.
#[derive(Debug, Drop)]
pub(crate) struct RowEdit {
    pub(crate) number: u64,
    pub(crate) row: Option<Row>,
}

impl RowEdit {
    ghost use Rattle.std.specs.Prelude.{◌≡◌, IfOk};

    /// An equal one, with memory of its own.
    pub(crate) fn copy(&self, alloc: Global) -> Result<RowEdit, AllocError>
        ensures { IfOk result (λ copy. copy ≡ self.now) }
    {
        let row = copied(alloc, &self.row)?;
        Ok(RowEdit {
            number: self.number,
            row,
        })
    }
}

ghost use Rattle.std.specs.Prelude.{◌≡◌, IfOk};

fn copied(alloc: Global, row: &Option<Row>) -> Result<Option<Row>, AllocError>
    ensures { IfOk result (λ copy. copy ≡ row.now) }
{
    match row {
        None => Ok(None),
        Some(row) => Ok(Some(row.copy(alloc)?)),
    }
}

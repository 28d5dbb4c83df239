ghost use Rattle.std.specs.Prelude.{◌≡◌, ◌++◌, map, OnOk};
ghost use Rattle.wh_version.specs.RowEdits.{entries_in, removal_of, change_of};

use crate::row_edit::RowEdit;
use crate::row_edits::RowEdits;
use std::alloc::{AllocError, Global};
use wh_part::NumberedRow;
use wh_value::Row;

/// Edits of a table's rows: rows that become others or go, by their numbers, and rows that come.
#[derive(Debug, Drop)]
pub struct Edits {
    pub(crate) rows: RowEdits,
    pub(crate) added: Vec<Row>,
}

impl Edits {
    ghost use Rattle.std.specs.Prelude.{◌≡◌, map, IfOk};
    ghost use Rattle.wh_state.specs.Edits.{edits_from};
    ghost use Rattle.wh_part.specs.View.{numbered_of};
    ghost use Rattle.wh_version.specs.Edits.{edits_in};

    /// Rows that go, by their numbers, rows that become others, and rows that come. Where a number
    /// is named twice, the last one counts.
    pub fn new(
        alloc: Global,
        removed: &[u64],
        changed: Vec<NumberedRow>,
        added: Vec<Row>,
    ) -> Result<Edits, AllocError>
        ensures { IfOk result (λ e. edits_in e
            ≡ edits_from removed.now (map numbered_of changed.items) added.items) }
    {
        let mut list = Vec::with_capacity(alloc, removed.len())?;
        remove(&mut list, removed)?;
        change(&mut list, changed)?;
        let rows = RowEdits::of(alloc, list)?;
        Ok(Edits { rows, added })
    }

    /// The rows that come.
    pub fn added(&self) -> &[Row]
        ensures { result.now ≡ (edits_in self.now).added }
    {
        self.added.as_slice()
    }
}

fn remove(list: &mut Vec<RowEdit>, removed: &[u64]) -> Result<(), AllocError>
    ensures { OnOk result (entries_in list.new.items
        ≡ entries_in list.old.items ++ map removal_of removed.now) }
{
    for number in removed {
        list.push(RowEdit {
            number: *number,
            row: None,
        })?;
    }
    Ok(())
}

fn change(list: &mut Vec<RowEdit>, changed: Vec<NumberedRow>) -> Result<(), AllocError>
    ensures { OnOk result (entries_in list.new.items
        ≡ entries_in list.old.items ++ map change_of changed.items) }
{
    list.reserve(changed.len())?;
    for NumberedRow { number, row } in changed {
        list.push(RowEdit {
            number,
            row: Some(row),
        })?;
    }
    Ok(())
}

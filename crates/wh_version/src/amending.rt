use crate::Edits;
use crate::row_edits::RowEdits;
use std::alloc::{AllocError, Global};
use wh_value::Row;

impl Edits {
    ghost use Rattle.std.specs.Prelude.{◌≡◌, IfOk, OnOk, OnErr};
    ghost use Rattle.wh_state.specs.Edits.{no_edits, later_edits};
    ghost use Rattle.wh_version.specs.Edits.{edits_in};

    /// No edits. Takes no memory.
    pub fn none(alloc: Global) -> Edits
        ensures { edits_in result ≡ no_edits }
    {
        Edits {
            rows: RowEdits::new(alloc),
            added: Vec::new(alloc),
        }
    }

    /// Equal edits, with memory of their own.
    pub fn copy(&self, alloc: Global) -> Result<Edits, AllocError>
        ensures { IfOk result (λ copy. edits_in copy ≡ edits_in self.now) }
    {
        let rows = self.rows.copy(alloc)?;
        let added = copied(alloc, &self.added)?;
        Ok(Edits { rows, added })
    }

    /// Later edits on top of these: rows that were added are named by the numbers from `next_row`
    /// on. For want of memory they stay as they were.
    pub fn amend(&mut self, alloc: Global, next_row: u64, later: Edits) -> Result<(), AllocError>
        ensures ok { OnOk result (edits_in self.new
            ≡ later_edits next_row (edits_in self.old) (edits_in later)) }
        ensures err { OnErr result (edits_in self.new ≡ edits_in self.old) }
    {
        let Edits { rows, mut added } = later;
        if rows.is_empty() {
            // Rows that come cost no look at what is staged.
            self.added.append(&mut added)?;
            return Ok(());
        }
        let mut left = added_left(alloc, next_row, &rows, &self.added)?;
        left.append(&mut added)?;
        let staged = self.rows.copy(alloc)?;
        self.rows = staged.with_later(alloc, next_row, rows)?;
        self.added = left;
        Ok(())
    }
}

ghost use Rattle.std.specs.Prelude.{◌≡◌, ◌+◌, ◌++◌, map, IfOk, OnOk};
ghost use Rattle.wh_state.specs.Edits.{edited_row, added_left};

fn copied(alloc: Global, rows: &[Row]) -> Result<Vec<Row>, AllocError>
    ensures { IfOk result (λ copies. copies.items ≡ rows.now) }
{
    let mut copies = Vec::with_capacity(alloc, rows.len())?;
    for row in rows {
        copies.push(row.copy(alloc)?)?;
    }
    Ok(copies)
}

// Those of the added rows that are left, with the changed ones in place.
fn added_left(
    alloc: Global,
    next_row: u64,
    edits: &RowEdits,
    added: &[Row],
) -> Result<Vec<Row>, AllocError>
    ensures { IfOk result (λ left. left.items ≡ added_left next_row edits.now added.now) }
{
    let mut left = Vec::new(alloc);
    let mut guess = 0;
    for place in 0..added.len() {
        // So many rows can't be numbered, and no memory has them.
        let Some(number) = next_row.checked_add(place as u64) else {
            return Err(AllocError);
        };
        add_edited(alloc, &mut left, edits, number, &added[place], &mut guess)?;
    }
    Ok(left)
}

fn add_edited(
    alloc: Global,
    left: &mut Vec<Row>,
    edits: &RowEdits,
    number: u64,
    row: &Row,
    guess: &mut usize,
) -> Result<(), AllocError>
    ensures { OnOk result (left.new.items ≡ left.old.items
        ++ map (λ entry. entry.1) (edited_row edits.now (number, row.now))) }
{
    if let Some(row) = edits.edited_row(number, row, guess) {
        left.push(row.copy(alloc)?)?;
    }
    Ok(())
}

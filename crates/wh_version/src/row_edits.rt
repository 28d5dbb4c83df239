use crate::merging::merged;
use crate::row_edit::RowEdit;
use crate::searching::{place_near, place_of, rises};
use std::alloc::{AllocError, Global};
use std::marker::Model;
use wh_value::Row;

/// New rows by their numbers, or none where a row goes, as a list that rises strictly by number.
/// Contracts see the machine's row edits.
#[derive(Debug, Drop)]
pub(crate) struct RowEdits {
    list: Vec<RowEdit>,
}

impl Model for RowEdits {
    ghost use Rattle.std.specs.Prelude.{◌≡◌, true};
    ghost use Rattle.std.specs.FinMap.{code, from_sorted, is_sorted};
    ghost use Rattle.std.specs.Coded.{coded_list, coded_option, coded_ℕ};
    ghost use Rattle.std.specs.Ordering.{nat_cmp};
    ghost use Rattle.wh_value.specs.Value.{coded_value};
    ghost use Rattle.wh_state.specs.Edits as machine;
    ghost use Rattle.wh_version.specs.RowEdits.{entries_in};

    ghost Value = { machine.RowEdits };

    ghost coded = { code coded_ℕ (coded_option (coded_list coded_value)) };

    ghost view = { λ e. from_sorted (entries_in e.list.items) };

    ghost invariant = { λ e. is_sorted nat_cmp (entries_in e.list.items) ≡ true };
}

impl RowEdits {
    ghost use Rattle.std.specs.Prelude.{◌≡◌, ℕ, ◌≤◌, None, is_some, IfOk};
    ghost use Rattle.std.specs.Bool.{OnTrue, OnFalse};
    ghost use Rattle.std.specs.FinMap.{empty, get, entries};
    ghost use Rattle.wh_state.specs.Edits.{edited_row, with_later};
    ghost use Rattle.wh_version.specs.Edits.{row_left};
    ghost use Rattle.wh_version.specs.RowEdits.{put_all, entries_in, row_in, below};

    /// Each row stays. Takes no memory.
    pub(crate) fn new(alloc: Global) -> RowEdits
        ensures { result ≡ empty }
    {
        RowEdits {
            list: Vec::new(alloc),
        }
    }

    /// Edits in the order in which they were made: of those of one number the last one counts.
    /// Takes linear time where the numbers rise.
    pub(crate) fn of(alloc: Global, mut list: Vec<RowEdit>) -> Result<RowEdits, AllocError>
        ensures { IfOk result (λ edits. edits ≡ put_all empty (entries_in list.items)) }
    {
        if rises(&list) {
            return Ok(RowEdits { list });
        }
        // Halves, so that no order takes more than the logarithm of the count for each of them.
        let half = list.len() / 2;
        let later = list.split_off(half)?;
        let earlier = RowEdits::of(alloc, list)?;
        let later = RowEdits::of(alloc, later)?;
        earlier.with_all(alloc, later)
    }

    /// Equal edits, with memory of their own.
    pub(crate) fn copy(&self, alloc: Global) -> Result<RowEdits, AllocError>
        ensures { IfOk result (λ copy. copy ≡ self.now) }
    {
        let list = copied(alloc, &self.list)?;
        Ok(RowEdits { list })
    }

    /// Later edits on top, of rows whose numbers are below the next one.
    pub(crate) fn with_later(
        self,
        alloc: Global,
        next_row: u64,
        later: RowEdits,
    ) -> Result<RowEdits, AllocError>
        ensures { IfOk result (λ edits. edits ≡ with_later next_row self (entries later)) }
    {
        self.with_all(alloc, later.below(next_row))
    }

    // Later edits on top. Takes linear time.
    fn with_all(self, alloc: Global, later: RowEdits) -> Result<RowEdits, AllocError>
        ensures { IfOk result (λ edits. edits ≡ put_all self (entries later)) }
    {
        let list = merged(alloc, self.list, later.list)?;
        Ok(RowEdits { list })
    }

    // Those of the rows whose numbers are below that one.
    fn below(self, number: u64) -> RowEdits
        ensures { entries result ≡ below number (entries self) }
    {
        let RowEdits { mut list } = self;
        let count = place_of(&list, number);
        list.truncate(count);
        RowEdits { list }
    }

    /// Whether each row stays.
    pub(crate) fn is_empty(&self) -> bool
        ensures { OnTrue result (self.now ≡ empty) }
    {
        self.list.is_empty()
    }

    /// Whether the row of that number becomes another, be it an equal one, or goes.
    /// Looks at the guess first, and leaves there what to guess for the next number.
    pub(crate) fn has(&self, number: u64, guess: &mut usize) -> bool
        ensures { result ≡ is_some (get self.now number) }
    {
        self.edit_of(number, guess).is_some()
    }

    /// Whether some row from the first of these numbers to the last becomes another or goes.
    pub(crate) fn has_between(&self, first: u64, last: u64) -> bool
        ensures { OnFalse result ((number : ℕ) → first ≤ number → number ≤ last
            → get self.now number ≡ None) }
    {
        let place = place_of(&self.list, first);
        place < self.list.len() && self.list[place].number <= last
    }

    /// What becomes of a row. Looks at the guess first, as `has` does.
    pub(crate) fn edited_row<'a>(
        &'a self,
        number: u64,
        row: &'a Row,
        guess: &mut usize,
    ) -> Option<&'a Row>
        ensures { row_left number result ≡ edited_row self.now (number, row.now) }
    {
        let Some(edit) = self.edit_of(number, guess) else {
            return Some(row);
        };
        edit.row.as_ref()
    }

    // The edit of the row of that number, if there is one.
    fn edit_of<'a>(&'a self, number: u64, guess: &mut usize) -> Option<&'a RowEdit>
        ensures { row_in result ≡ get self.now number }
    {
        let place = place_near(&self.list, *guess, number);
        *guess = place;
        if self.list.len() <= place {
            return None;
        }
        let found = &self.list[place];
        if found.number != number {
            return None;
        }
        *guess = place + 1;
        Some(found)
    }
}

ghost use Rattle.std.specs.Prelude.{◌≡◌, IfOk};

fn copied(alloc: Global, list: &[RowEdit]) -> Result<Vec<RowEdit>, AllocError>
    ensures { IfOk result (λ copies. copies.items ≡ list.now) }
{
    let mut copies = Vec::with_capacity(alloc, list.len())?;
    for edit in list {
        copies.push(edit.copy(alloc)?)?;
    }
    Ok(copies)
}

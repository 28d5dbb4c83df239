use crate::Effect;
use std::alloc::{AllocError, Global};
use wh_part::NumberedRow;
use wh_value::Row;

/// What becomes of a row.
#[derive(Debug, Drop)]
pub(crate) enum Turn {
    Stays,
    Goes,
    Becomes(Row),
}

impl Effect {
    ghost use Rattle.std.specs.Prelude.{◌≡◌, OnOk};
    ghost use Rattle.wh_dml.specs.Steps.{before, done_by};
    ghost use Rattle.wh_dml.specs.View.{effect_of, turn_of};
    ghost use Rattle.wh_effect.specs.Effect as meaning;

    pub(crate) fn new(alloc: Global) -> Effect
        ensures { effect_of result ≡ meaning.no_effect }
    {
        Effect {
            removed: Vec::new(alloc),
            changed: Vec::new(alloc),
            added: Vec::new(alloc),
        }
    }

    /// Adds the turn of the next row.
    pub(crate) fn put(&mut self, number: u64, turn: Turn) -> Result<(), AllocError>
        ensures { OnOk result
            (effect_of self.new ≡ before (effect_of self.old) (done_by number (turn_of turn))) }
    {
        match turn {
            Turn::Stays => Ok(()),
            Turn::Goes => self.remove(number),
            Turn::Becomes(row) => self.change(number, row),
        }
    }

    /// The row of that number goes.
    pub(crate) fn remove(&mut self, number: u64) -> Result<(), AllocError>
        ensures { OnOk result
            (effect_of self.new ≡ before (effect_of self.old) (done_by number meaning.Goes)) }
    {
        self.removed.push(number)?;
        Ok(())
    }

    /// The row of that number becomes another.
    pub(crate) fn change(&mut self, number: u64, row: Row) -> Result<(), AllocError>
        ensures { OnOk result (effect_of self.new
            ≡ before (effect_of self.old) (done_by number (meaning.Becomes row))) }
    {
        self.changed.push(NumberedRow { number, row })?;
        Ok(())
    }

    /// Adds the effect of the rows behind these.
    pub(crate) fn append(&mut self, other: Effect) -> Result<(), AllocError>
        ensures { OnOk result
            (effect_of self.new ≡ before (effect_of self.old) (effect_of other)) }
    {
        let Effect {
            mut removed,
            mut changed,
            mut added,
        } = other;
        self.removed.append(&mut removed)?;
        self.changed.append(&mut changed)?;
        self.added.append(&mut added)?;
        Ok(())
    }
}

//! What moves groups, by key.
use crate::moving::{Moving, Side};
use std::alloc::Global;
use std::collections::BTreeMap;
use std::marker::Model;
use wh_aggregate::values_on;
use wh_algebra::Call;
use wh_scalar::{EvalFault, Scalar};
use wh_value::Row;

/// The keys of rows that come and go, and what these add up to.
#[derive(Drop)]
pub(crate) struct Touched {
    pub(crate) map: BTreeMap<Row, Moving>,
}

impl Model for Touched {
    ghost use Rattle.std.specs.FinMap as maps;
    ghost use Rattle.std.specs.Coded.{coded_list, coded×};
    ghost use Rattle.wh_value.specs.Value.{coded_value};
    ghost use Rattle.wh_group.specs.Standing.{coded_standing};
    ghost use Rattle.wh_group.specs.Moves.{Moves};

    ghost Value = { Moves };

    ghost coded = { maps.code (coded_list coded_value) (coded× coded_standing coded_standing) };

    ghost view = { λ t. maps.from_entries t.map.entries };
}

impl Touched {
    ghost use Rattle.std.specs.Prelude.{◌≡◌};
    ghost use Rattle.std.specs.FinMap.{empty};
    ghost use Rattle.wh_algebra.specs.View.{calls_of, scalars_of};
    ghost use Rattle.wh_aggregate.specs.Given.{Leaves};
    ghost use Rattle.wh_group.specs.Moves.{noted, added};

    /// By no row.
    pub(crate) fn new(alloc: Global) -> Touched
        ensures { result ≡ empty }
    {
        Touched {
            map: BTreeMap::new(alloc),
        }
    }

    /// Adds the rows of a side. They are walked from the last to the first, as their meaning is
    /// folded.
    pub(crate) fn add(
        &mut self,
        alloc: Global,
        by: &[Scalar],
        calls: &[Call],
        rows: &[Row],
        side: Side,
    ) -> Result<(), EvalFault>
        ensures { Leaves result self.new
            (added side (scalars_of by.now) (calls_of calls.now) self.old rows.now) }
    {
        let mut left = rows.len();
        while left > 0 {
            left -= 1;
            let row = &rows[left];
            let key = values_on(alloc, by, row)?;
            self.note(alloc, calls, row, key, side)?;
        }
        Ok(())
    }

    // Adds a row to what moves the group of its key.
    fn note(
        &mut self,
        alloc: Global,
        calls: &[Call],
        row: &Row,
        key: Row,
        side: Side,
    ) -> Result<(), EvalFault>
        ensures { Leaves result self.new (noted side (calls_of calls.now) row.now key self.old) }
    {
        if let Some(moving) = self.map.get_mut(&key) {
            return moving.add_row(alloc, calls, row, side);
        }
        let mut moving = Moving::new(alloc, calls)?;
        moving.add_row(alloc, calls, row, side)?;
        let Ok(_) = self.map.insert(key, moving) else {
            return Err(EvalFault::OutOfMemory);
        };
        Ok(())
    }
}

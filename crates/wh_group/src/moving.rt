//! What moves a group.
use crate::tally::Tallies;
use std::alloc::{AllocError, Global};
use std::marker::Model;
use wh_algebra::Call;
use wh_scalar::EvalFault;
use wh_value::Row;

/// Whether rows come or go.
#[derive(Clone, Copy, Debug)]
pub(crate) enum Side {
    Comes,
    Goes,
}

/// What the rows of a group that come add up to, and those that go.
#[derive(Debug, Drop)]
pub(crate) struct Moving {
    pub(crate) came: Tallies,
    pub(crate) went: Tallies,
}

impl Model for Moving {
    ghost use Rattle.std.specs.Coded.{coded×};
    ghost use Rattle.wh_maintenance.specs.Standing.{Standing};
    ghost use Rattle.wh_group.specs.Standing.{coded_standing};

    ghost Value = { Standing × Standing };

    ghost coded = { coded× coded_standing coded_standing };

    ghost view = { λ m. (m.came, m.went) };
}

impl Moving {
    ghost use Rattle.std.specs.Prelude.{◌≡◌, IfOk};
    ghost use Rattle.wh_algebra.specs.View.{calls_of};
    ghost use Rattle.wh_aggregate.specs.Given.{Leaves};
    ghost use Rattle.wh_group.specs.Moves.{begun_move, taken};

    /// No row yet.
    pub(crate) fn new(alloc: Global, calls: &[Call]) -> Result<Moving, AllocError>
        ensures { IfOk result (λ moving. moving ≡ begun_move (calls_of calls.now)) }
    {
        let came = Tallies::new(alloc, calls)?;
        let went = Tallies::new(alloc, calls)?;
        Ok(Moving { came, went })
    }

    /// One row more on a side.
    pub(crate) fn add_row(
        &mut self,
        alloc: Global,
        calls: &[Call],
        row: &Row,
        side: Side,
    ) -> Result<(), EvalFault>
        ensures { Leaves result self.new (taken side (calls_of calls.now) row.now self.old) }
    {
        match side {
            Side::Comes => self.came.add_row(alloc, calls, row),
            Side::Goes => self.went.add_row(alloc, calls, row),
        }
    }
}

ghost use Rattle.std.specs.Prelude.{◌≡◌, OnOk};
ghost use Rattle.wh_algebra.specs.View.{calls_of};
ghost use Rattle.wh_aggregate.specs.Given.{Leaves};
ghost use Rattle.wh_aggregate.specs.Tally.{tallied, together};

use crate::tally::{Tally, argument};
use std::alloc::{AllocError, Global};
use std::marker::Model;
use wh_algebra::Call;
use wh_scalar::EvalFault;
use wh_value::Row;

/// What the calls of a group add up, by the calls' order.
#[derive(Debug, Drop)]
pub(crate) struct Tallies {
    tallies: Vec<Tally>,
}

impl Model for Tallies {
    ghost use Rattle.std.specs.Prelude.{List};
    ghost use Rattle.std.specs.Coded.{coded_list};
    ghost use Rattle.wh_meaning.specs.Query.{Total};
    ghost use Rattle.wh_aggregate.specs.Tally.{coded_total};

    ghost Value = { List Total };

    ghost coded = { coded_list coded_total };

    ghost view = { λ t. t.tallies.items };
}

impl Tallies {
    ghost use Rattle.std.specs.Prelude.{◌≡◌, IfOk, OnOk};
    ghost use Rattle.wh_algebra.specs.View.{calls_of};
    ghost use Rattle.wh_aggregate.specs.Given.{Gives, Leaves};
    ghost use Rattle.wh_aggregate.specs.Tally.{begun, tallied, together};
    ghost use Rattle.wh_aggregate.specs.Groups.{group_row};

    pub(crate) fn new(alloc: Global, calls: &[Call]) -> Result<Tallies, AllocError>
        ensures { IfOk result (λ tallies. tallies ≡ begun (calls_of calls.now)) }
    {
        let mut tallies = Vec::with_capacity(alloc, calls.len())?;
        for _ in calls {
            tallies.push(Tally::new())?;
        }
        Ok(Tallies { tallies })
    }

    pub(crate) fn add_row(
        &mut self,
        alloc: Global,
        calls: &[Call],
        row: &Row,
    ) -> Result<(), EvalFault>
        ensures { Leaves result self.new (tallied (calls_of calls.now) row.now self.old) }
    {
        add_row(alloc, calls, row, &mut self.tallies)
    }

    /// Adds what others have added up over other rows, for the same calls.
    pub(crate) fn join(&mut self, other: &Tallies) -> Result<(), AllocError>
        ensures { OnOk result (self.new ≡ together self.old other.now) }
    {
        join(&mut self.tallies, &other.tallies)
    }

    /// The key, and then what the calls answer.
    pub(crate) fn group_row(&self, calls: &[Call], key: Row) -> Result<Row, EvalFault>
        ensures { Gives result (group_row (calls_of calls.now) key self.now) }
    {
        let mut row = key;
        for i in 0..calls.len().min(self.tallies.len()) {
            row.push(self.tallies[i].answer(&calls[i])?)?;
        }
        Ok(row)
    }
}

fn add_row(alloc: Global, calls: &[Call], row: &Row, tallies: &mut [Tally]) -> Result<(), EvalFault>
    ensures { Leaves result tallies.new (tallied (calls_of calls.now) row.now tallies.old) }
{
    let Some((call, calls)) = calls.split_first() else {
        return Ok(());
    };
    let Some((tally, tallies)) = tallies.split_first_mut() else {
        return Ok(());
    };
    tally.add(&argument(alloc, call, row)?)?;
    add_row(alloc, calls, row, tallies)
}

fn join(tallies: &mut [Tally], others: &[Tally]) -> Result<(), AllocError>
    ensures { OnOk result (tallies.new ≡ together tallies.old others.now) }
{
    let Some((tally, tallies)) = tallies.split_first_mut() else {
        return Ok(());
    };
    let Some((other, others)) = others.split_first() else {
        return Ok(());
    };
    tally.join(other)?;
    join(tallies, others)
}

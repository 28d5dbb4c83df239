use crate::tallies::Tallies;
use crate::values::values_on;
use std::alloc::{AllocError, Global};
use std::collections::BTreeMap;
use std::marker::Model;
use wh_algebra::{Call, Tuple};
use wh_scalar::{EvalFault, Scalar};
use wh_value::Row;

/// Groups to which rows are added: a row for each distinct key, or the one row of all rows where
/// there are no keys.
#[derive(Drop)]
pub struct Groups {
    map: BTreeMap<Row, Tallies>,
}

impl Model for Groups {
    ghost use Rattle.std.specs.FinMap as maps;
    ghost use Rattle.std.specs.Coded.{coded_list};
    ghost use Rattle.wh_value.specs.Value.{coded_value};
    ghost use Rattle.wh_aggregate.specs.Tally.{coded_total};
    ghost use Rattle.wh_aggregate.specs.Groups as groups;

    ghost Value = { groups.Groups };

    ghost coded = { maps.code (coded_list coded_value) (coded_list coded_total) };

    ghost view = { λ g. maps.from_entries g.map.entries };
}

impl Groups {
    ghost use Rattle.std.specs.Prelude.{◌≡◌, List, IfOk, OnOk};
    ghost use Rattle.wh_meaning.specs.Scalar as scalars;
    ghost use Rattle.wh_meaning.specs.Bag.{Bag, no_rows, plus};
    ghost use Rattle.wh_meaning.specs.Query as queries;
    ghost use Rattle.wh_meaning.specs.Query.{grouped};
    ghost use Rattle.wh_algebra.specs.View.{calls_of, scalars_of};
    ghost use Rattle.wh_algebra.specs.Tuple.{rows_in};
    ghost use Rattle.wh_aggregate.specs.Given.{Leaves, GivesRows};
    ghost use Rattle.wh_aggregate.specs.Groups.{AreOver, TakesIn, noted, with_group};

    /// Of no rows.
    pub fn new(alloc: Global, by: &[Scalar], calls: &[Call]) -> Result<Groups, AllocError>
        ensures { IfOk result
            (λ groups. AreOver (scalars_of by.now) (calls_of calls.now) no_rows groups) }
    {
        let mut map = BTreeMap::new(alloc);
        if !by.is_empty() {
            return Ok(Groups { map });
        }
        // Without keys there is one group, also of no rows.
        let Ok(_) = map.insert(Row::new(alloc), Tallies::new(alloc, calls)?) else {
            return Err(AllocError);
        };
        Ok(Groups { map })
    }

    /// Adds rows. They are walked from the last to the first, as their meaning is folded.
    pub fn add(
        &mut self,
        alloc: Global,
        by: &[Scalar],
        calls: &[Call],
        rows: &[Tuple<'_>],
    ) -> Result<(), EvalFault>
        ensures { (before : Bag) → AreOver (scalars_of by.now) (calls_of calls.now) before self.old
            → TakesIn (scalars_of by.now) (calls_of calls.now) (rows_in rows.now) before
            result self.new }
    {
        let mut left = rows.len();
        while left > 0 {
            left -= 1;
            let row = rows[left].row();
            let key = values_on(alloc, by, row)?;
            self.note(alloc, calls, row, key)?;
        }
        Ok(())
    }

    // Adds a row to the group of its key.
    fn note(&mut self, alloc: Global, calls: &[Call], row: &Row, key: Row) -> Result<(), EvalFault>
        ensures { Leaves result self.new (noted (calls_of calls.now) row.now key self.old) }
    {
        if let Some(tallies) = self.map.get_mut(&key) {
            return tallies.add_row(alloc, calls, row);
        }
        let mut tallies = Tallies::new(alloc, calls)?;
        tallies.add_row(alloc, calls, row)?;
        let Ok(_) = self.map.insert(key, tallies) else {
            return Err(EvalFault::OutOfMemory);
        };
        Ok(())
    }

    /// Adds groups of other rows, each to the group of its key.
    pub fn join(&mut self, other: Groups) -> Result<(), AllocError>
        ensures { OnOk result ((by : List scalars.Scalar) (calls : List queries.Call) (b c : Bag)
            → AreOver by calls b self.old → AreOver by calls c other
            → AreOver by calls (plus b c) self.new) }
    {
        let Groups { map } = other;
        for (key, tallies) in map {
            self.join_one(key, tallies)?;
        }
        Ok(())
    }

    // Adds a group of other rows.
    fn join_one(&mut self, key: Row, tallies: Tallies) -> Result<(), AllocError>
        ensures { OnOk result (self.new ≡ with_group key tallies self.old) }
    {
        if let Some(own) = self.map.get_mut(&key) {
            return own.join(&tallies);
        }
        let Ok(_) = self.map.insert(key, tallies) else {
            return Err(AllocError);
        };
        Ok(())
    }

    /// A row for each group: the key's values, and then those of the calls.
    pub fn list(self, alloc: Global, calls: &[Call]) -> Result<Vec<Row>, EvalFault>
        ensures { (by : List scalars.Scalar) (b : Bag) → AreOver by (calls_of calls.now) b self
            → GivesRows result (grouped by (calls_of calls.now) b) }
    {
        let Groups { map } = self;
        let mut rows = Vec::with_capacity(alloc, map.len())?;
        for (key, tallies) in map {
            let row = tallies.group_row(calls, key)?;
            rows.push(row).map_err(AllocError::from)?;
        }
        Ok(rows)
    }
}

use crate::{AddFault, Times};
use std::alloc::{AllocError, Global};
use std::collections::BTreeMap;
use std::collections::btree_map::Iter;
use std::marker::Model;
use wh_value::Row;

/// Rows with counts. A row that isn't there has the count 0.
#[derive(Drop)]
pub struct Bag {
    map: BTreeMap<Row, Times>,
}

impl Model for Bag {
    ghost use Rattle.std.specs.FinMap.{code, from_entries};
    ghost use Rattle.std.specs.Coded.{coded_list, coded_ℕ};
    ghost use Rattle.wh_value.specs.Value.{coded_value};
    ghost use Rattle.wh_meaning.specs.Bag as bags;

    ghost Value = { bags.Bag };

    ghost coded = { code (coded_list coded_value) coded_ℕ };

    ghost view = { λ b. from_entries b.map.entries };
}

impl Bag {
    ghost use Rattle.std.specs.Prelude.{◌≡◌, ◌+◌, ◌^◌, ◌≤◌, ◌↔◌, Err, IsTrue, IfOk, OnOk, OnErr};
    ghost use Rattle.std.specs.FinMap.{entries};
    ghost use Rattle.wh_value.specs.Value as values;
    ghost use Rattle.wh_meaning.specs.Bag as bags;
    ghost use Rattle.wh_meaning.specs.Bag.{no_rows, with_row, again, plus};
    ghost use Rattle.wh_meaning.specs.BagChange.{IsExcess, IsWithin};
    ghost use Rattle.wh_bag.specs.Walk.{entered};
    ghost use Rattle.wh_bag.specs.declared.fault.AddFault.TheVariants.{TooMany};

    /// No row yet. Takes no memory.
    pub fn new(alloc: Global) -> Bag
        ensures { result ≡ no_rows }
    {
        Bag {
            map: BTreeMap::new(alloc),
        }
    }

    pub fn is_empty(&self) -> bool
        ensures { IsTrue result ↔ (self.now ≡ no_rows) }
    {
        self.map.is_empty()
    }

    /// How often the row is there.
    pub fn count(&self, row: &Row) -> u64
        ensures { result ≡ bags.count self.now row.now }
    {
        match self.map.get(row) {
            Some(times) => times.count(),
            None => 0,
        }
    }

    /// The rows in the row order, each once, with their counts.
    pub fn iter(&self) -> Iter<'_, Row, Times>
        ensures { result ≡ entries self.now }
    {
        self.map.iter()
    }

    /// The row so often more. A fault leaves the bag as it was.
    pub fn add(&mut self, row: Row, count: u64) -> Result<(), AddFault>
        ensures ok { OnOk result (self.new ≡ again count (with_row row) self.old) }
        ensures err { OnErr result (self.new ≡ self.old) }
        ensures too_many { (result ≡ Err TooMany) ↔ (2 ^ 64 ≤ bags.count self.old row + count) }
    {
        if let Some(times) = self.map.get_mut(&row) {
            return times.add(count);
        }
        self.enter(row, count)?;
        Ok(())
    }

    // A row so often, in place of what its count was. 0 changes nothing.
    fn enter(&mut self, row: Row, count: u64) -> Result<(), AllocError>
        ensures ok { OnOk result (self.new ≡ entered row count self.old) }
        ensures err { OnErr result (self.new ≡ self.old) }
    {
        let Some(times) = Times::new(count) else {
            return Ok(());
        };
        let Ok(_) = self.map.insert(row, times) else {
            return Err(AllocError);
        };
        Ok(())
    }

    /// The rows that are here more often than in the other bag, each so often.
    pub(crate) fn excess(&self, alloc: Global, other: &Bag) -> Result<Bag, AllocError>
        ensures excess { IfOk result (IsExcess self.now other.now) }
        ensures within { IfOk result IsWithin }
    {
        let mut more = Bag::new(alloc);
        for (row, times) in self.iter() {
            let count = times.count().saturating_sub(other.count(row));
            if count > 0 {
                more.enter(row.copy(alloc)?, count)?;
            }
        }
        Ok(more)
    }

    /// Each row of the other bag as often more as it is there. A fault leaves some of them added.
    pub(crate) fn add_all(&mut self, alloc: Global, other: &Bag) -> Result<(), AddFault>
        ensures ok { OnOk result (self.new ≡ plus other.now self.old) }
        ensures within { OnOk result (IsWithin self.old → IsWithin self.new) }
        ensures too_many { result ≡ Err TooMany
            → (row : values.Row) × (2 ^ 64 ≤ bags.count self.old row + bags.count other.now row) }
    {
        for (row, times) in other.iter() {
            self.add(row.copy(alloc)?, times.count())?;
        }
        Ok(())
    }
}

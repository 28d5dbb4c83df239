ghost use Rattle.std.specs.Prelude.{◌≡◌, map, OnOk, OnErr, refl};
ghost use Rattle.std.specs.Cmp.{partial_equiv_from_equiv, eq_by_cmp_equiv, po};
ghost use Rattle.std.specs.Ordering.{eq_by_cmp, as_partial_cmp};
ghost use Rattle.wh_value.specs.Value.{row_cmp};
ghost use Rattle.wh_value.specs.Value.{in_order};
ghost use Rattle.wh_value.specs.Order.{row_total};
ghost use Rattle.wh_value.specs.View.{value_of};

use crate::{Value, cmp_values};
use std::alloc::{AllocError, Global};
use std::cmp::Ordering;
use std::marker::Model;

/// Values from left to right. Contracts see those of the machine.
#[derive(Debug, Drop)]
pub struct Row {
    values: Vec<Value>,
}

impl Model for Row {
    ghost use Rattle.std.specs.Prelude.{List, map};
    ghost use Rattle.std.specs.Coded.{coded_list};
    ghost use Rattle.wh_value.specs.Value as machine;
    ghost use Rattle.wh_value.specs.Value.{coded_value};
    ghost use Rattle.wh_value.specs.View.{value_of};

    ghost Value = { List machine.Value };

    ghost coded = { coded_list coded_value };

    ghost view = { λ r. map value_of r.values.items };
}

impl Row {
    ghost use Rattle.std.specs.Prelude.{◌≡◌, [], ◌∷◌, ◌++◌, map, length, OnOk, OnErr, IfOk};
    ghost use Rattle.wh_value.specs.View.{value_of};

    /// No value yet. Takes no memory.
    pub fn new(alloc: Global) -> Row
        ensures { result ≡ [] }
    {
        Row {
            values: Vec::new(alloc),
        }
    }

    /// No value yet, with memory for so many.
    pub fn with_capacity(alloc: Global, count: usize) -> Result<Row, AllocError>
        ensures { IfOk result (λ row. row ≡ []) }
    {
        let values = Vec::with_capacity(alloc, count)?;
        Ok(Row { values })
    }

    pub fn push(&mut self, value: Value) -> Result<(), AllocError>
        ensures ok { OnOk result (self.new ≡ self.old ++ value_of value ∷ []) }
        ensures err { OnErr result (self.new ≡ self.old) }
    {
        self.values.push(value)?;
        Ok(())
    }

    /// The row of these values.
    pub fn of(values: Vec<Value>) -> Row
        ensures { result ≡ map value_of values.items }
    {
        Row { values }
    }

    /// Its values, on their own.
    pub fn into_values(self) -> Vec<Value>
        ensures { map value_of result.items ≡ self }
    {
        let Row { values } = self;
        values
    }

    pub fn values(&self) -> &[Value]
        ensures { map value_of result.now ≡ self.now }
    {
        self.values.as_slice()
    }

    pub fn len(&self) -> usize
        ensures { result ≡ length self.now }
    {
        self.values.len()
    }

    /// An equal row. Its texts share their bytes.
    pub fn copy(&self, alloc: Global) -> Result<Row, AllocError>
        ensures { IfOk result (λ copy. copy ≡ self.now) }
    {
        let mut values = Vec::with_capacity(alloc, self.values.len())?;
        for value in &self.values {
            values.push(value.copy(alloc)?)?;
        }
        Ok(Row { values })
    }
}

/// The row order: values from left to right.
pub fn cmp_rows(a: &Row, b: &Row) -> Ordering
    ensures { result ≡ row_cmp a.now b.now }
{
    cmp_from(&a.values, &b.values)
}

#[cycle(cmp_from)]
fn cmp_from(a: &[Value], b: &[Value]) -> Ordering
    ensures { result ≡ row_cmp (map value_of a.now) (map value_of b.now) }
{
    match (a, b) {
        ([], []) => Ordering::Equal,
        ([], _) => Ordering::Less,
        ([_, _behind @ ..], []) => Ordering::Greater,
        ([x, a @ ..], [y, b @ ..]) => match cmp_values(x, y) {
            Ordering::Equal => cmp_from(a, b),
            order => order,
        },
    }
}

/// Puts rows in the row order. For want of memory they stay as they are.
pub fn sort_rows(rows: &mut Vec<Row>) -> Result<(), AllocError>
    ensures ok { OnOk result (rows.new.items ≡ in_order rows.old.items) }
    ensures err { OnErr result (rows.new.items ≡ rows.old.items) }
{
    rows.sort()
}

impl PartialEq for Row {
    ghost eq = { eq_by_cmp row_cmp };

    ghost laws = { partial_equiv_from_equiv (eq_by_cmp_equiv row_total) };

    fn eq(&self, other: &Row) -> bool {
        cmp_rows(self, other).is_eq()
    }
}

impl Eq for Row {
    ghost laws = { eq_by_cmp_equiv row_total };
}

impl PartialOrd for Row {
    ghost partial_cmp = { as_partial_cmp row_cmp };

    ghost laws = { po row_total (λ a b. refl) };

    fn partial_cmp(&self, other: &Row) -> Option<Ordering> {
        Some(self.cmp(other))
    }
}

impl Ord for Row {
    ghost cmp = { row_cmp };

    ghost total = { row_total };

    ghost matches_partial_cmp = { λ a b. refl };

    ghost matches_eq = { λ a b. refl };

    fn cmp(&self, other: &Row) -> Ordering {
        cmp_rows(self, other)
    }
}

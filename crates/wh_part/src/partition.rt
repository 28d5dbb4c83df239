use std::marker::Model;
use wh_value::Row;

/// A row and its number.
#[derive(Debug, Drop)]
pub struct NumberedRow {
    pub number: u64,
    pub row: Row,
}

/// 1 to 1,000 rows of a table by rising row number. A partition has a number of its own and never
/// changes.
/// Contracts see the machine's partition.
#[derive(Debug, Drop)]
pub struct Partition {
    number: u64,
    rows: Vec<NumberedRow>,
}

impl Model for Partition {
    ghost use Rattle.std.specs.Prelude.{map, length, ◌<◌, ◌≤◌};
    ghost use Rattle.wh_frame.specs.Partition as machine;
    ghost use Rattle.wh_frame.specs.Partition.{coded_partition};
    ghost use Rattle.wh_frame.specs.Spelling.{RisesFrom};
    ghost use Rattle.wh_part.specs.View.{numbered_of};

    ghost Value = { machine.Partition };

    ghost coded = { coded_partition };

    ghost view = { λ p. record { number = p.number; rows = map numbered_of p.rows.items } };

    ghost invariant = { λ p. (0 < length p.rows.items) × (length p.rows.items ≤ 1000)
        × RisesFrom 0 (map numbered_of p.rows.items) };
}

impl Partition {
    ghost use Rattle.std.specs.Prelude.{◌≡◌, map, length, ◌<◌, ◌≤◌};
    ghost use Rattle.wh_frame.specs.Partition.{first_number, last_number};
    ghost use Rattle.wh_frame.specs.Spelling.{RisesFrom};
    ghost use Rattle.wh_part.specs.View.{numbered_of};

    /// The most rows of a partition.
    pub const MAX_ROWS: usize = 1000;

    /// The partition of these rows.
    pub fn make(number: u64, rows: Vec<NumberedRow>) -> Partition
        requires some { 0 < length rows.items }
        requires few { length rows.items ≤ 1000 }
        requires rising { RisesFrom 0 (map numbered_of rows.items) }
        ensures number { result.number ≡ number }
        ensures rows { result.rows ≡ map numbered_of rows.items }
    {
        Partition { number, rows }
    }

    pub fn number(&self) -> u64
        ensures { result ≡ self.now.number }
    {
        self.number
    }

    pub fn rows(&self) -> &[NumberedRow]
        ensures rows { map numbered_of result.now ≡ self.now.rows }
        ensures some { 0 < length result.now }
        ensures few { length result.now ≤ 1000 }
        ensures rising { RisesFrom 0 self.now.rows }
    {
        self.rows.as_slice()
    }

    /// The rows, on their own.
    pub fn into_rows(self) -> Vec<NumberedRow>
        ensures { map numbered_of result.items ≡ self.rows }
    {
        let Partition { rows, .. } = self;
        rows
    }

    /// The number of the first row.
    pub fn first(&self) -> u64
        ensures { result ≡ first_number self.now.rows }
    {
        self.rows[0].number
    }

    /// The number of the last row.
    pub fn last(&self) -> u64
        ensures { result ≡ last_number self.now.rows }
    {
        let rows = self.rows();
        rows[rows.len() - 1].number
    }
}

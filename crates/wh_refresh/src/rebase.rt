//! The rows of a table brought to others.
ghost use Rattle.std.specs.Prelude.{◌≡◌, ◌++◌, [], length, replicate, IfOk, OnOk};
ghost use Rattle.std.specs.FinMap.{entries};
ghost use Rattle.wh_meaning.specs.Bag as bags;
ghost use Rattle.wh_meaning.specs.BagChange.{IsExcess};
ghost use Rattle.wh_meaning.specs.Listing.{listed as machine_listed};
ghost use Rattle.wh_algebra.specs.Tuple.{rows_in};
ghost use Rattle.wh_state.specs.State.{Rows};
ghost use Rattle.wh_moment.specs.Rebase as machine;
ghost use Rattle.wh_version.specs.Edits.{edits_in};
ghost use Rattle.wh_table.specs.Rows.{all_rows, partitions_at};
ghost use Rattle.wh_refresh.specs.Walk.{walked, walk_of, nothing_walked, expanded};

use std::alloc::{AllocError, Global};
use wh_algebra::Tuple;
use wh_bag::{Bag, net};
use wh_listing::listed;
use wh_part::{NumberedRow, Partition};
use wh_value::Row;
use wh_version::Edits;

/// Edits of a table, and how many rows come and go with them.
#[derive(Debug, Drop)]
pub(crate) struct Rebased {
    pub edits: Edits,
    pub plus: u64,
    pub minus: u64,
}

/// The edits that leave these rows: of each row so many stay as stand before and behind, those with
/// the lowest numbers. `old` are the partitions of a table by their rows.
pub(crate) fn rebase(alloc: Global, old: &[&Partition], new: &Bag) -> Result<Rebased, AllocError>
    ensures edits { IfOk result (λ r. (rows : Rows)
        → all_rows (partitions_at old.now) ≡ entries rows
        → edits_in r.edits ≡ machine.rebase rows new.now) }
    ensures plus { IfOk result (λ r. r.plus ≡ length (edits_in r.edits).added) }
    ensures minus { IfOk result (λ r. (rows : Rows)
        → all_rows (partitions_at old.now) ≡ entries rows
        → r.minus ≡ length (entries (edits_in r.edits).rows)) }
{
    let walk = walk_over(alloc, old, new)?;
    let come = come(alloc, &walk.kept, new)?;
    let plus = come.len() as u64;
    let minus = walk.gone.len() as u64;
    let edits = Edits::new(alloc, &walk.gone, Vec::new(alloc), come)?;
    Ok(Rebased { edits, plus, minus })
}

/// What the rows so far leave: the numbers of those that go, and the others.
#[derive(Drop)]
pub(crate) struct Walk {
    pub gone: Vec<u64>,
    pub kept: Bag,
}

fn walk_over(alloc: Global, old: &[&Partition], new: &Bag) -> Result<Walk, AllocError>
    ensures { IfOk result (λ w. walk_of w
        ≡ walked new.now (all_rows (partitions_at old.now)) nothing_walked) }
{
    let mut walk = Walk {
        gone: Vec::new(alloc),
        kept: Bag::new(alloc),
    };
    for partition in old {
        walk.pass_all(alloc, new, partition.rows())?;
    }
    Ok(walk)
}

impl Walk {
    ghost use Rattle.std.specs.Prelude.{◌≡◌, map, OnOk};
    ghost use Rattle.wh_part.specs.View.{numbered_of};
    ghost use Rattle.wh_refresh.specs.Walk.{walked, passed, walk_of};

    fn pass_all(&mut self, alloc: Global, new: &Bag, rows: &[NumberedRow]) -> Result<(), AllocError>
        ensures { OnOk result (walk_of self.new
            ≡ walked new.now (map numbered_of rows.now) (walk_of self.old)) }
    {
        for entry in rows {
            self.pass(alloc, new, entry)?;
        }
        Ok(())
    }

    // One row more: it stays where it is still to be found.
    fn pass(&mut self, alloc: Global, new: &Bag, entry: &NumberedRow) -> Result<(), AllocError>
        ensures { OnOk result (walk_of self.new
            ≡ passed new.now (numbered_of entry.now) (walk_of self.old)) }
    {
        let row = &entry.row;
        if self.kept.count(row) < new.count(row) {
            let row = row.copy(alloc)?;
            // No list is so long that a count of it passes 64 bits.
            return self.kept.add(row, 1).map_err(|_| AllocError);
        }
        self.gone.push(entry.number)?;
        Ok(())
    }
}

// The rows that aren't kept, in the row order.
fn come(alloc: Global, kept: &Bag, new: &Bag) -> Result<Vec<Row>, AllocError>
    ensures { IfOk result (λ rows. (left : bags.Bag) → IsExcess new.now kept.now left
        → rows.items ≡ machine_listed [] left) }
{
    let more = net(alloc, kept, new)?;
    let rows = each_row(alloc, &more.plus)?;
    listed(alloc, &[], rows)
}

// The rows of a bag, each as often as it is there.
fn each_row<'a>(alloc: Global, bag: &Bag) -> Result<Vec<Tuple<'a>>, AllocError>
    ensures { IfOk result (λ rows. rows_in rows.items ≡ expanded (entries bag.now)) }
{
    let mut rows = Vec::new(alloc);
    for (row, times) in bag.iter() {
        add_rows(alloc, &mut rows, row, times.count())?;
    }
    Ok(rows)
}

fn add_rows(
    alloc: Global,
    rows: &mut Vec<Tuple<'_>>,
    row: &Row,
    count: u64,
) -> Result<(), AllocError>
    ensures { OnOk result (rows_in rows.new.items
        ≡ rows_in rows.old.items ++ replicate count row.now) }
{
    for _ in 0..count {
        rows.push(Tuple::Made(row.copy(alloc)?))?;
    }
    Ok(())
}

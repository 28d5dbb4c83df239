//! The partitions that came with versions so far, by the numbers of their rows.
ghost use Rattle.wh_table.specs.Rows.{partitions_at};
ghost use Rattle.wh_change.specs.Seen.{IsBound};

use std::alloc::AllocError;
use wh_part::{NumberedRow, Partition};

/// Partitions in the order in which they came.
#[derive(Debug, Drop)]
pub(crate) struct Seen<'a> {
    pub(crate) partitions: Vec<&'a Partition>,
    /// No row of them has a number above it.
    highest: u64,
    ghost bounded: { IsBound highest (partitions_at partitions.items) },
}

impl<'a> Seen<'a> {
    ghost use Rattle.std.specs.Prelude.{◌≡◌, [], ◌∷◌, ◌++◌, is_some, OnOk};
    ghost use Rattle.wh_table.specs.Rows.{partitions_at};
    ghost use Rattle.wh_change.specs.Seen.{is_seen};

    pub(crate) fn of(partitions: Vec<&'a Partition>) -> Seen<'a>
        ensures { result.partitions.items ≡ partitions.entry.items }
    {
        let highest = highest_of(&partitions);
        Seen {
            partitions,
            highest,
        }
    }

    pub(crate) fn add(&mut self, partition: &'a Partition) -> Result<(), AllocError>
        ensures { OnOk result (partitions_at self.new.partitions.items
            ≡ partitions_at self.old.partitions.items ++ partition.now ∷ []) }
    {
        self.partitions.push(partition)?;
        self.highest = self.highest.max(bound_of(partition));
        Ok(())
    }

    /// The place of a partition with a row of that number, if there is one. It is sought at a place
    /// first, and then from the first one on.
    pub(crate) fn place_of(&self, number: u64, near: usize) -> Option<usize>
        ensures { is_some result ≡ is_seen number (partitions_at self.now.partitions.items) }
    {
        if self.highest < number {
            return None;
        }
        if has_at(&self.partitions, near, number) {
            return Some(near);
        }
        first_with(&self.partitions, number)
    }
}

ghost use Rattle.std.specs.Prelude.{◌≡◌, [], ◌∷◌, true, map, is_some};
ghost use Rattle.std.specs.Ordering.{nat_cmp};
ghost use Rattle.std.specs.FinMap.Entries.{find};
ghost use Rattle.std.specs.List.{position};
ghost use Rattle.wh_frame.specs.Spelling.{RisesFrom};
ghost use Rattle.wh_part.specs.View.{numbered_of};
ghost use Rattle.wh_change.specs.Rows.{IsPlaceOf};
ghost use Rattle.wh_change.specs.Seen.{has_number, is_seen};

// The highest of their last numbers.
fn highest_of(partitions: &[&Partition]) -> u64
    ensures { IsBound result (partitions_at partitions.now) }
{
    let mut highest = 0;
    for partition in partitions {
        highest = highest.max(bound_of(partition));
    }
    highest
}

// Its last number.
fn bound_of(partition: &Partition) -> u64
    ensures { IsBound result (partition.now ∷ []) }
{
    let rows = partition.rows();
    rows[rows.len() - 1].number
}

// Whether the partition at a place has a row of that number. No place has none.
fn has_at(partitions: &[&Partition], place: usize, number: u64) -> bool
    ensures { result ≡ true → is_seen number (partitions_at partitions.now) ≡ true }
{
    place < partitions.len() && has_number(partitions[place], number)
}

fn first_with(partitions: &[&Partition], number: u64) -> Option<usize>
    ensures { result ≡ position (λ p. has_number number p.now) partitions.now }
{
    partitions
        .iter()
        .position(|partition| has_number(partition, number))
}

fn has_number(partition: &Partition, number: u64) -> bool
    ensures { result ≡ has_number number partition.now }
{
    let rows = partition.rows();
    if number < partition.first() || partition.last() < number {
        return false;
    }
    has_row(rows, number)
}

fn has_row(rows: &[NumberedRow], number: u64) -> bool
    requires { RisesFrom 0 (map numbered_of rows.now) }
    ensures { result ≡ is_some (find nat_cmp number (map numbered_of rows.now)) }
{
    let place = place_in(rows, number);
    place < rows.len() && rows[place].number == number
}

// The first place whose number isn't below it.
fn place_in(rows: &[NumberedRow], number: u64) -> usize
    requires { RisesFrom 0 (map numbered_of rows.now) }
    ensures { IsPlaceOf numbered_of number rows.now result }
{
    rows.partition_point(|row| row.number < number)
}

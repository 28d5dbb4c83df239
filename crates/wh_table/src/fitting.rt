use crate::StoredTable;
use crate::ranged::Ranged;
use wh_part::Outline;
use wh_record::OutlinedVersion;
use wh_value::{Column, Limit};
use wh_version::History;

impl StoredTable {
    ghost use Rattle.std.specs.Prelude.{◌≡◌, IsTrue};
    ghost use Rattle.wh_record.specs.View.{version_change_of};
    ghost use Rattle.wh_table.specs.Conditions.{is_formed, partitions_apply, version_applies};
    ghost use Rattle.wh_table.specs.Table.{table_of};

    /// Whether a new version applies to the table.
    pub(crate) fn takes(&self, change: &OutlinedVersion) -> bool
        ensures { result ≡ version_applies (table_of self.now) (version_change_of change.now) }
    {
        self.takes_form(change) && self.takes_partitions(change)
    }

    fn takes_form(&self, change: &OutlinedVersion) -> bool
        ensures { result ≡ is_formed (table_of self.now) (version_change_of change.now) }
    {
        does_not_fall(self.history.last_timestamp(), change.data_timestamp)
            && change.width as usize == self.columns.len()
            && change.next_row <= Limit::RowNumber.bound()
            && are_few(self.history.next_partition(), change.added.len())
    }

    fn takes_partitions(&self, change: &OutlinedVersion) -> bool
        requires { IsTrue (is_formed (table_of self.now) (version_change_of change.now)) }
        ensures { result ≡ partitions_apply (table_of self.now) (version_change_of change.now) }
    {
        let next = self.history.next_partition();
        all_stand(&self.history, &change.removed)
            && are_numbered(next, &change.added)
            && all_fit(&self.columns, change.next_row, &change.added)
            && are_apart(self.highest, &self.history, &change.removed, &change.added)
    }
}

ghost use Rattle.std.specs.Prelude.{◌≡◌, ◌+◌, ◌<◌, ◌≤◌, ◌^◌, map, length, nat_le};
ghost use Rattle.std.specs.List.{list_all};
ghost use Rattle.wh_value.specs.Limit.{bound};
ghost use Rattle.wh_value.specs.declared.limit.Limit.TheVariants as limits;
ghost use Rattle.wh_value.specs.View.{column_of};
ghost use Rattle.wh_version.specs.Lasting.{numbered_from};
ghost use Rattle.wh_version.specs.History.{versions_of, standing_in, partitions_of};
ghost use Rattle.wh_state.specs.Edits.{without};
ghost use Rattle.wh_table.specs.Apart.{all_apart, highest_number};
ghost use Rattle.wh_table.specs.Conditions.{is_standing_number, partition_fits};
ghost use Rattle.wh_table.specs.Conditions.{does_not_fall, rises_above};

use crate::comparing::compared_apart;

// Whether a data timestamp isn't below the last one, if there is one.
fn does_not_fall(last: Option<u64>, timestamp: u64) -> bool
    ensures { result ≡ does_not_fall last timestamp }
{
    match last {
        Some(last) => last <= timestamp,
        None => true,
    }
}

// Whether there are numbers for that many partitions from the next one on.
fn are_few(next: u64, count: usize) -> bool
    ensures { result ≡ nat_le (next + count) (bound limits.PartitionNumber) }
{
    let most = Limit::PartitionNumber.bound();
    next <= most && count as u64 <= most - next
}

fn all_stand(history: &History, numbers: &[u64]) -> bool
    ensures { result
        ≡ list_all (is_standing_number (standing_in (versions_of history.now))) numbers.now }
{
    numbers.iter().all(|number| history.stands(*number))
}

// Whether the partitions' numbers rise by one from the next on.
fn are_numbered(next: u64, partitions: &[Outline]) -> bool
    requires { next + length partitions.now < 2 ^ 64 }
    ensures { result ≡ numbered_from next partitions.now }
{
    let mut number = next;
    for partition in partitions {
        if partition.number() != number {
            return false;
        }
        number += 1;
    }
    true
}

fn all_fit(columns: &[Column], next_row: u64, partitions: &[Outline]) -> bool
    ensures { result
        ≡ list_all (partition_fits (map column_of columns.now) next_row) partitions.now }
{
    partitions
        .iter()
        .all(|partition| partition_fits(columns, next_row, partition))
}

fn partition_fits(columns: &[Column], next_row: u64, partition: &Outline) -> bool
    ensures { result ≡ partition_fits (map column_of columns.now) next_row partition.now }
{
    partition.fits(columns) && partition.last() < next_row
}

/// Whether each partition that is added is apart from those that stand and stay, and from those
/// before it. The highest row number of all versions spares comparing each with each.
pub(crate) fn are_apart<P: Ranged>(
    highest: u64,
    history: &History,
    removed: &[u64],
    added: &[P],
) -> bool
    requires { highest ≡ highest_number (partitions_of history.now) }
    ensures { result
        ≡ all_apart (without removed.now (standing_in (versions_of history.now)))
        (map P.rows added.now) }
{
    // Rows are added in rising order, so that each is seldom compared with those that stand.
    let kept = history.kept();
    rise_above(highest, added) || compared_apart(kept, removed, added)
}

fn rise_above<P: Ranged>(bound: u64, partitions: &[P]) -> bool
    ensures { result ≡ rises_above bound (map P.rows partitions.now) }
{
    let mut highest = bound;
    for partition in partitions {
        if partition.first_row() <= highest {
            return false;
        }
        highest = highest.max(partition.last_row());
    }
    true
}

//! The row numbers of partitions.
ghost use Rattle.std.specs.Prelude.{◌≡◌, max, IsTrue};
ghost use Rattle.std.specs.List.{list_all};
ghost use Rattle.wh_frame.specs.Partition.{last_number};
ghost use Rattle.wh_version.specs.History.{partitions_of};
ghost use Rattle.wh_table.specs.Apart.{highest_number, rows_rise};

use wh_part::Outline;
use wh_version::History;

/// The higher of a number and the last ones of the partitions, whose row numbers rise.
pub(crate) fn highest_of(highest: u64, partitions: &[Outline]) -> u64
    ensures highest { result ≡ max highest (highest_number partitions.now) }
    ensures rising { IsTrue (list_all rows_rise partitions.now) }
{
    let mut so_far = highest;
    for partition in partitions {
        so_far = so_far.max(last_rising(partition));
    }
    so_far
}

// The number of the last row. The numbers of the rows rise, by the type of outlines.
fn last_rising(partition: &Outline) -> u64
    ensures last { result ≡ last_number partition.now.rows }
    ensures rising { IsTrue (rows_rise partition.now) }
{
    partition.last()
}

/// The highest row number of all versions.
pub(crate) fn highest_kept(history: &History) -> u64
    ensures { result ≡ highest_number (partitions_of history.now) }
{
    let kept = history.kept();
    let mut so_far: u64 = 0;
    for one in kept {
        so_far = so_far.max(one.filed().last());
    }
    so_far
}

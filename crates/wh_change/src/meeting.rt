//! Of the partitions in front, those that may have a row number in common with what came behind.
ghost use Rattle.std.specs.Prelude.{[], ◌∷◌, IfOk};
ghost use Rattle.std.specs.Bool.{OnFalse};
ghost use Rattle.wh_filed.specs.Filed.{filed_at, partitions_at, AreAmong};
ghost use Rattle.wh_change.specs.Appended.{arrivals_at, came_in, AreSeenAlike};
ghost use Rattle.wh_change.specs.Seen.{HasNoneOf, IsLeast};

use std::alloc::{AllocError, Global};
use wh_filed::FiledPartition;
use wh_version::Arrivals;

/// Those of the partitions. By their first and last numbers no other has a row of a number that
/// came.
pub(crate) fn those_meeting<'a>(
    alloc: Global,
    front: &[&'a FiledPartition],
    later: &[Arrivals<'_>],
) -> Result<Vec<&'a FiledPartition>, AllocError>
    ensures seen { IfOk result (λ found. AreSeenAlike (came_in (arrivals_at later.now))
        (partitions_at found.items) (partitions_at front.now)) }
    ensures among { IfOk result (λ found. AreAmong (filed_at found.items) (filed_at front.now)) }
{
    let lowest = lowest_of(later);
    let mut found = Vec::new(alloc);
    for one in front {
        if may_meet(one, lowest, later) {
            found.push(*one)?;
        }
    }
    Ok(found)
}

// Rows that are new mostly have numbers above all in front, so one look is enough.
fn may_meet(one: &FiledPartition, lowest: u64, later: &[Arrivals<'_>]) -> bool
    requires { IsLeast lowest (came_in (arrivals_at later.now)) }
    ensures { OnFalse result (HasNoneOf (came_in (arrivals_at later.now)) one.now.partition) }
{
    if one.last() < lowest {
        return false;
    }
    meets_any(one, later)
}

fn meets_any(one: &FiledPartition, later: &[Arrivals<'_>]) -> bool
    ensures { OnFalse result (HasNoneOf (came_in (arrivals_at later.now)) one.now.partition) }
{
    for arrivals in later {
        if meets_one(one, &arrivals.came) {
            return true;
        }
    }
    false
}

fn meets_one(one: &FiledPartition, came: &[&FiledPartition]) -> bool
    ensures { OnFalse result (HasNoneOf (partitions_at came.now) one.now.partition) }
{
    for other in came {
        if meets(one, other) {
            return true;
        }
    }
    false
}

fn meets(one: &FiledPartition, other: &FiledPartition) -> bool
    ensures { OnFalse result (HasNoneOf (other.now.partition ∷ []) one.now.partition) }
{
    let (end, last) = (one.last(), other.last());
    one.first() <= last && other.first() <= end
}

// The lowest of their first numbers.
fn lowest_of(later: &[Arrivals<'_>]) -> u64
    ensures { IsLeast result (came_in (arrivals_at later.now)) }
{
    let mut lowest = u64::MAX;
    for arrivals in later {
        lowest = lowest.min(lowest_in(&arrivals.came));
    }
    lowest
}

fn lowest_in(came: &[&FiledPartition]) -> u64
    ensures { IsLeast result (partitions_at came.now) }
{
    let mut lowest = u64::MAX;
    for one in came {
        lowest = lowest.min(first_of(one));
    }
    lowest
}

fn first_of(one: &FiledPartition) -> u64
    ensures { IsLeast result (one.now.partition ∷ []) }
{
    // The numbers rise up to the last one.
    let _end = one.last();
    one.first()
}

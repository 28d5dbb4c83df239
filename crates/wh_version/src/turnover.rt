ghost use Rattle.std.specs.Prelude.{◌≡◌, ◌≤◌, ◌++◌, ◌∷◌, [], length, take, OnOk, IfOk};
ghost use Rattle.wh_filed.specs.Filed.{filed_at};
ghost use Rattle.wh_version.specs.Lasting.{standing_filed, gone_filed};

use crate::times::{Time, last_place};
use crate::version::add_standing;
use crate::{History, Lasting};
use std::alloc::{AllocError, Global};
use wh_filed::FiledPartition;

/// The partitions that an earlier version has and a later one hasn't, and those that the later one
/// has and the earlier one hasn't, by rising number each.
#[derive(Debug, Drop)]
pub struct Turnover<'a> {
    pub went: Vec<&'a FiledPartition>,
    pub came: Vec<&'a FiledPartition>,
}

/// The place of a version, and how many partitions there were by then; 0 and 0 for none.
#[derive(Clone, Copy, Debug)]
pub(crate) struct Reach {
    pub(crate) place: usize,
    pub(crate) partitions: usize,
}

impl History {
    ghost use Rattle.std.specs.Prelude.{◌≡◌, ◌≤◌, [], length, take, IfOk};
    ghost use Rattle.std.specs.List.{AllByRecursion};
    ghost use Rattle.wh_state.specs.State.{content_in};
    ghost use Rattle.wh_version.specs.declared.times.Time.TheVariants.{Data};
    ghost use Rattle.wh_filed.specs.Filed.{filed_at, partitions_at};
    ghost use Rattle.wh_version.specs.History.{versions_of, filed_of, marks_of};
    ghost use Rattle.wh_version.specs.Lasting.{gone_filed};
    ghost use Rattle.wh_version.specs.Times.{data_at, is_up_to, last_place};
    ghost use Rattle.wh_version.specs.Moved.{IsMoved};
    ghost use Rattle.wh_version.specs.Turnover.{IsTurnover, reach_at};

    /// What went and came from the last version whose data timestamp is at most `from` to the last
    /// one whose data timestamp is at most `to`. Where no version is old enough, nothing stands.
    pub fn turnover(&self, alloc: Global, from: u64, to: u64) -> Result<Turnover<'_>, AllocError>
        requires { from ≤ to }
        ensures turnover { IfOk result (λ found. IsTurnover
            (partitions_at found.went.items) (partitions_at found.came.items)
            (content_in [] (data_at from (versions_of self.now)))
            (content_in [] (data_at to (versions_of self.now)))) }
        ensures went { IfOk result (λ found. AllByRecursion
            (IsMoved from to (versions_of self.now) (filed_of self.now))
            (filed_at found.went.items)) }
        ensures came { IfOk result (λ found. AllByRecursion
            (IsMoved from to (versions_of self.now) (filed_of self.now))
            (filed_at found.came.items)) }
    {
        let old = self.reach(from);
        let new = self.reach(to);
        let went = self.gone_by(alloc, old, new.place)?;
        let came = standing_behind(&self.kept, old.partitions, new, alloc)?;
        Ok(Turnover { went, came })
    }

    // The partitions that stand by a reach and are gone by a later place.
    fn gone_by(
        &self,
        alloc: Global,
        old: Reach,
        new: usize,
    ) -> Result<Vec<&FiledPartition>, AllocError>
        requires within { old.partitions ≤ length self.now.kept.items }
        requires place { new ≤ length self.now.later.items }
        ensures { IfOk result (λ found. filed_at found.items
            ≡ gone_filed old.place new (take old.partitions self.now.kept.items)) }
    {
        // Of a table whose rows only come, no partition is looked at.
        if self.last_going <= old.place {
            return Ok(Vec::new(alloc));
        }
        let gone = gone_between(&self.kept[..old.partitions], old.place, new, alloc)?;
        Ok(gone)
    }

    fn reach(&self, timestamp: u64) -> Reach
        ensures { result ≡ reach_at (marks_of self.now) self.now.first
            (last_place (is_up_to Data timestamp) (marks_of self.now)) }
    {
        let Some(place) = last_place(self.first, &self.later, Time::Data, timestamp) else {
            return Reach {
                place: 0,
                partitions: 0,
            };
        };
        let mark = self.mark(place);
        Reach {
            place,
            partitions: mark.partitions,
        }
    }
}

// The partitions that stand at a place and are gone by another.
fn gone_between(
    kept: &[Lasting],
    old: usize,
    new: usize,
    alloc: Global,
) -> Result<Vec<&FiledPartition>, AllocError>
    ensures { IfOk result (λ found. filed_at found.items ≡ gone_filed old new kept.now) }
{
    let mut found = Vec::new(alloc);
    for one in kept {
        add_gone(&mut found, old, new, one)?;
    }
    Ok(found)
}

fn add_gone<'a>(
    found: &mut Vec<&'a FiledPartition>,
    old: usize,
    new: usize,
    one: &'a Lasting,
) -> Result<(), AllocError>
    ensures { OnOk result (filed_at found.new.items
        ≡ filed_at found.old.items ++ gone_filed old new (one.now ∷ [])) }
{
    if old < one.until && one.until <= new {
        found.push(one.filed())?;
    }
    Ok(())
}

/// The partitions behind so many, up to a version's reach, that stand in it.
pub(crate) fn standing_behind<'a>(
    kept: &'a [Lasting],
    seen: usize,
    reach: Reach,
    alloc: Global,
) -> Result<Vec<&'a FiledPartition>, AllocError>
    requires order { seen ≤ reach.partitions }
    requires within { reach.partitions ≤ length kept.now }
    ensures { IfOk result (λ found. standing_filed reach.place (take seen kept.now)
        ++ filed_at found.items
        ≡ standing_filed reach.place (take reach.partitions kept.now)) }
{
    let mut found = Vec::new(alloc);
    for index in seen..reach.partitions {
        add_standing(&mut found, reach.place, &kept[index])?;
    }
    Ok(found)
}

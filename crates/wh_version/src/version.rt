use crate::times::{Time, last_place};
use crate::{History, Lasting};
use std::alloc::{AllocError, Global};
use wh_filed::FiledPartition;

/// A version of a table: when it was pushed, whose data it shows, and what it holds.
#[derive(Clone, Copy, Debug)]
pub struct Version<'a> {
    pub stamp: u64,
    pub data_timestamp: u64,
    /// Its place among the versions of its table.
    pub(crate) place: usize,
    /// The partitions that there were by then.
    pub(crate) kept: &'a [Lasting],
}

impl History {
    ghost use Rattle.std.specs.Prelude.{◌≡◌, ◌<◌, length, option_map, Contains, IfOk, IfSome};
    ghost use Rattle.std.specs.Prelude.{slice_index_or as get_or};
    ghost use Rattle.std.specs.List.{AllByRecursion};
    ghost use Rattle.wh_filed.specs.Filed.{filed_at, partitions_at};
    ghost use Rattle.wh_version.specs.Lasting.{version_by};
    ghost use Rattle.wh_version.specs.Times.{data_at, visible_at, is_up_to, last_place};
    ghost use Rattle.wh_version.specs.Times.{place_behind};
    ghost use Rattle.wh_version.specs.History.{versions_of, filed_of, marks_of, standing_in};
    ghost use Rattle.wh_version.specs.Version.{version_in, filed_by};

    /// The partitions of the last version, by rising number; none where there is no version.
    pub fn standing(&self, alloc: Global) -> Result<Vec<&FiledPartition>, AllocError>
        ensures standing { IfOk result (λ found. partitions_at found.items
            ≡ standing_in (versions_of self.now)) }
        ensures among { IfOk result (λ found.
            AllByRecursion (Contains (filed_of self.now)) (filed_at found.items)) }
    {
        let last = self.version(self.later.len());
        let standing = last.partitions(alloc)?;
        Ok(standing)
    }

    /// The last version whose data timestamp is at most that. None exactly where no version is
    /// old enough.
    pub fn at(&self, timestamp: u64) -> Option<Version<'_>>
        ensures version { option_map version_in result
            ≡ data_at timestamp (versions_of self.now) }
        ensures among { IfSome result (λ v.
            AllByRecursion (Contains (filed_of self.now)) (filed_by v)) }
    {
        self.last_up_to(Time::Data, timestamp)
    }

    /// The last version whose stamp is at most that. None exactly where no version is old enough.
    pub fn visible(&self, stamp: u64) -> Option<Version<'_>>
        ensures version { option_map version_in result
            ≡ visible_at stamp (versions_of self.now) }
        ensures among { IfSome result (λ v.
            AllByRecursion (Contains (filed_of self.now)) (filed_by v)) }
    {
        self.last_up_to(Time::Stamp, stamp)
    }

    fn last_up_to(&self, time: Time, limit: u64) -> Option<Version<'_>>
        ensures version { option_map version_in result ≡ option_map
            (λ place. version_by self.now.kept.items place
            (get_or (marks_of self.now) place self.now.first))
            (place_behind self.now.starts_empty
            (last_place (is_up_to time limit) (marks_of self.now))) }
        ensures among { IfSome result (λ v.
            AllByRecursion (Contains (filed_of self.now)) (filed_by v)) }
    {
        let Some(place) = last_place(self.first, &self.later, time, limit) else {
            return None;
        };
        if self.starts_empty && place == 0 {
            return None;
        }
        Some(self.version(place))
    }

    fn version(&self, place: usize) -> Version<'_>
        requires { place < length (marks_of self.now) }
        ensures version { version_in result ≡ version_by self.now.kept.items place
            (get_or (marks_of self.now) place self.now.first) }
        ensures among { AllByRecursion (Contains (filed_of self.now)) (filed_by result) }
    {
        let mark = self.mark(place);
        Version {
            stamp: mark.stamp,
            data_timestamp: mark.data_timestamp,
            place,
            kept: &self.kept[..mark.partitions],
        }
    }
}

impl<'a> Version<'a> {
    ghost use Rattle.std.specs.Prelude.{◌≡◌, Contains, IfOk};
    ghost use Rattle.std.specs.List.{AllByRecursion};
    ghost use Rattle.wh_filed.specs.Filed.{filed_at, partitions_at};
    ghost use Rattle.wh_version.specs.Version.{version_in, filed_by};

    /// Its partitions, by rising number.
    pub fn partitions(&self, alloc: Global) -> Result<Vec<&'a FiledPartition>, AllocError>
        ensures content { IfOk result (λ found.
            partitions_at found.items ≡ (version_in self.now).content) }
        ensures among { IfOk result (λ found.
            AllByRecursion (Contains (filed_by self.now)) (filed_at found.items)) }
    {
        let found = standing_at(self.place, self.kept, alloc)?;
        Ok(found)
    }
}

ghost use Rattle.std.specs.Prelude.{◌≡◌, ◌++◌, ◌∷◌, [], OnOk, IfOk};
ghost use Rattle.wh_filed.specs.Filed.{filed_at};
ghost use Rattle.wh_version.specs.Lasting.{standing_filed};

// The partitions that stand in the version at a place.
fn standing_at(
    place: usize,
    kept: &[Lasting],
    alloc: Global,
) -> Result<Vec<&FiledPartition>, AllocError>
    ensures { IfOk result (λ found. filed_at found.items ≡ standing_filed place kept.now) }
{
    let mut found = Vec::new(alloc);
    for one in kept {
        add_standing(&mut found, place, one)?;
    }
    Ok(found)
}

/// Adds a partition, if it stands at a place.
pub(crate) fn add_standing<'a>(
    found: &mut Vec<&'a FiledPartition>,
    place: usize,
    one: &'a Lasting,
) -> Result<(), AllocError>
    ensures { OnOk result (filed_at found.new.items
        ≡ filed_at found.old.items ++ standing_filed place (one.now ∷ [])) }
{
    if place < one.until {
        found.push(one.filed())?;
    }
    Ok(())
}

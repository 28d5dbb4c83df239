use crate::turnover::{Reach, standing_behind};
use crate::{History, Lasting};
use std::alloc::{AllocError, Global};
use wh_filed::FiledPartition;

/// When a version was pushed, and the partitions that came with it, by rising number.
#[derive(Debug, Drop)]
pub struct Arrivals<'a> {
    pub stamp: u64,
    pub came: Vec<&'a FiledPartition>,
}

/// How many versions at the front of a table's were pushed by a stamp, and the partitions that came
/// with them, version by version.
#[derive(Debug, Drop)]
pub struct Leading<'a> {
    pub count: usize,
    pub came: Vec<&'a FiledPartition>,
}

impl History {
    ghost use Rattle.std.specs.Prelude.{◌≡◌, ◌<◌, ◌∷◌, zero, suc, length, take, drop};
    ghost use Rattle.std.specs.Prelude.{slice_index_or as get_or, IfOk};
    ghost use Rattle.wh_version.specs.Arrivals.{IsArrival, IsFront, partitions_before};
    ghost use Rattle.wh_version.specs.Arrivals.{mark_place};
    ghost use Rattle.wh_filed.specs.Filed.{filed_at, partitions_at, AreAmong};
    ghost use Rattle.wh_version.specs.History.{versions_of, filed_of, marked_of, marks_of};

    /// How many versions there are.
    pub fn count(&self) -> usize
        ensures { result ≡ length (versions_of self.now) }
    {
        let count = self.mark_count();
        if self.starts_empty {
            return count - 1;
        }
        count
    }

    fn mark_count(&self) -> usize
        ensures { result ≡ length (marked_of self.now) }
    {
        self.later.len() + 1
    }

    /// What came with the version at a place, from the first one on.
    pub fn arrivals(&self, alloc: Global, place: usize) -> Result<Arrivals<'_>, AllocError>
        requires { place < length (versions_of self.now) }
        ensures came { IfOk result (λ found.
            IsArrival found.stamp (partitions_at found.came.items)
            (take place (versions_of self.now)) (drop place (versions_of self.now))) }
        ensures among { IfOk result (λ found.
            AreAmong (filed_at found.came.items) (filed_of self.now)) }
    {
        let arrivals = self.came_with(alloc, self.mark_place(place))?;
        Ok(arrivals)
    }

    fn mark_place(&self, place: usize) -> usize
        requires { place < length (versions_of self.now) }
        ensures place { result ≡ mark_place self.now.starts_empty place }
        ensures within { result < length (marks_of self.now) }
    {
        if self.starts_empty {
            return place + 1;
        }
        place
    }

    // What came with the mark at a place.
    fn came_with(&self, alloc: Global, place: usize) -> Result<Arrivals<'_>, AllocError>
        requires { place < length (marks_of self.now) }
        ensures came { IfOk result (λ found.
            IsArrival found.stamp (partitions_at found.came.items)
            (take place (marked_of self.now)) (drop place (marked_of self.now))) }
        ensures among { IfOk result (λ found.
            AreAmong (filed_at found.came.items) (filed_of self.now)) }
    {
        let mark = self.mark(place);
        let reach = Reach {
            place,
            partitions: mark.partitions,
        };
        let came = standing_behind(&self.kept, self.partitions_before(place), reach, alloc)?;
        Ok(Arrivals {
            stamp: mark.stamp,
            came,
        })
    }

    /// The versions at the front that were pushed by a stamp, and what came with them.
    pub fn front(&self, alloc: Global, stamp: u64) -> Result<Leading<'_>, AllocError>
        ensures came { IfOk result (λ front. IsFront stamp front.count
            (partitions_at front.came.items) (versions_of self.now)) }
        ensures among { IfOk result (λ front.
            AreAmong (filed_at front.came.items) (filed_of self.now)) }
    {
        let front = self.marked_front(alloc, stamp)?;
        if !self.starts_empty {
            return Ok(front);
        }
        // A mark that is no version lies in front of all stamps.
        let Leading { count, came } = front;
        Ok(Leading {
            count: count - 1,
            came,
        })
    }

    fn marked_front(&self, alloc: Global, stamp: u64) -> Result<Leading<'_>, AllocError>
        ensures came { IfOk result (λ front. IsFront stamp front.count
            (partitions_at front.came.items) (marked_of self.now)) }
        ensures among { IfOk result (λ front.
            AreAmong (filed_at front.came.items) (filed_of self.now)) }
    {
        let mut came = Vec::with_capacity(alloc, self.kept.len())?;
        let mut before = 0;
        let count = self.mark_count();
        for place in 0..count {
            let mark = self.mark(place);
            if stamp < mark.stamp {
                return Ok(Leading { count: place, came });
            }
            for index in before..mark.partitions {
                put_standing(&mut came, place, &self.kept[index]);
            }
            before = mark.partitions;
        }
        Ok(Leading { count, came })
    }

    // How many partitions there were before the version at a place.
    fn partitions_before(&self, place: usize) -> usize
        requires { place < length (marks_of self.now) }
        ensures { result ≡ partitions_before (marks_of self.now) self.now.first place }
    {
        if place == 0 {
            return 0;
        }
        self.mark(place - 1).partitions
    }
}

ghost use Rattle.std.specs.Prelude.{◌≡◌, ◌+◌, ◌<◌, ◌≤◌, ◌∷◌, [], ◌++◌, vec_len, vec_capacity};
ghost use Rattle.wh_filed.specs.Filed.{filed_at, partitions_at, AreAmong};
ghost use Rattle.wh_version.specs.Lasting.{standing_at};

// Adds a partition, if it stands at a place. There is memory for it.
fn put_standing<'a>(found: &mut Vec<&'a FiledPartition>, place: usize, one: &'a Lasting)
    requires { vec_len found.old < vec_capacity found.old }
    ensures items { partitions_at found.new.items
        ≡ partitions_at found.old.items ++ standing_at place (one.now ∷ []) }
    ensures among { AreAmong (filed_at found.new.items)
        (filed_at found.old.items ++ one.now.filed ∷ []) }
    ensures length { vec_len found.new ≤ vec_len found.old + 1 }
    ensures capacity { vec_capacity found.new ≡ vec_capacity found.old }
{
    if place < one.until {
        found.push_reserved(one.filed());
    }
}

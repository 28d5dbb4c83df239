ghost use Rattle.std.specs.Prelude.{◌≡◌, ◌+◌, ◌≤◌, ◌++◌, length, map, vec_len, vec_capacity};
ghost use Rattle.std.specs.Prelude.{IsTrue};
ghost use Rattle.wh_version.specs.Lasting.{numbered_from, partitions_in, part_one, parted, fresh};
ghost use Rattle.wh_version.specs.Lasting.{going_with};

use crate::{History, Lasting, VersionMark};
use std::alloc::AllocError;
use wh_filed::FiledPartition;

impl History {
    ghost use Rattle.std.specs.Prelude.{◌≡◌, ◌+◌, [], ◌∷◌, ◌++◌, length, OnOk, OnErr};
    ghost use Rattle.wh_filed.specs.Filed.{partitions_filed};
    ghost use Rattle.wh_state.specs.Commit.{NumberedFrom};
    ghost use Rattle.wh_version.specs.History.{versions_of, nexts_of, partitions_of, next_in};
    ghost use Rattle.wh_version.specs.History.{filed_of, pushed_with};

    /// Adds a version: the last one's partitions without those of the removed numbers, and then the
    /// added ones. Takes memory for what is added alone, and takes it first.
    pub fn push(
        &mut self,
        stamp: u64,
        data_timestamp: u64,
        removed: &[u64],
        added: Vec<FiledPartition>,
    ) -> Result<(), AllocError>
        requires { NumberedFrom (next_in (nexts_of self.old)) (partitions_filed added.items) }
        ensures versions { OnOk result (versions_of self.new
            ≡ pushed_with (versions_of self.old) stamp data_timestamp removed.now
            (partitions_filed added.items)) }
        ensures nexts { OnOk result (nexts_of self.new
            ≡ nexts_of self.old ++ (next_in (nexts_of self.old) + length added.items) ∷ []) }
        ensures partitions { OnOk result (partitions_of self.new
            ≡ partitions_of self.old ++ partitions_filed added.items) }
        ensures filed { OnOk result (filed_of self.new ≡ filed_of self.old ++ added.items) }
        ensures empty { self.new.starts_empty ≡ self.old.starts_empty }
        ensures same { OnErr result (versions_of self.new ≡ versions_of self.old) }
        ensures same_nexts { OnErr result (nexts_of self.new ≡ nexts_of self.old) }
        ensures same_partitions { OnErr result (partitions_of self.new ≡ partitions_of self.old) }
        ensures same_filed { OnErr result (filed_of self.new ≡ filed_of self.old) }
    {
        self.kept.reserve(added.len())?;
        self.later.reserve(1)?;
        let place = self.later.len() + 1;
        part(&mut self.kept, place, removed);
        self.last_going = going_with(self.last_going, place, removed);
        append(&mut self.kept, added);
        let partitions = self.kept.len();
        self.later.push_reserved(VersionMark {
            stamp,
            data_timestamp,
            partitions,
        });
        Ok(())
    }
}

// The last place at which a partition went, with these that go at a later one.
fn going_with(last: usize, place: usize, removed: &[u64]) -> usize
    ensures { result ≡ going_with last place removed.now }
{
    if removed.is_empty() {
        return last;
    }
    place
}

// From the place on the partitions of these numbers don't stand.
fn part(kept: &mut Vec<Lasting>, place: usize, removed: &[u64])
    requires { IsTrue (numbered_from 1 (partitions_in kept.old.items)) }
    ensures parted { kept.new.items ≡ parted place removed.now kept.old.items }
    ensures length { vec_len kept.new ≡ vec_len kept.old }
    ensures capacity { vec_capacity kept.new ≡ vec_capacity kept.old }
{
    for number in removed {
        part_one(kept, place, *number);
    }
}

fn part_one(kept: &mut Vec<Lasting>, place: usize, number: u64)
    requires { IsTrue (numbered_from 1 (partitions_in kept.old.items)) }
    ensures parted { kept.new.items ≡ map (part_one place number) kept.old.items }
    ensures length { vec_len kept.new ≡ vec_len kept.old }
    ensures capacity { vec_capacity kept.new ≡ vec_capacity kept.old }
{
    let number = number as usize;
    if number == 0 || kept.len() < number {
        return;
    }
    let one = &mut kept[number - 1];
    one.until = one.until.min(place);
}

// Adds partitions that stand, for which there is memory.
fn append(kept: &mut Vec<Lasting>, added: Vec<FiledPartition>)
    requires { vec_len kept.old + vec_len added ≤ vec_capacity kept.old }
    ensures { kept.new.items ≡ kept.old.items ++ map fresh added.items }
{
    for filed in added {
        kept.push_reserved(Lasting {
            filed,
            until: usize::MAX,
        });
    }
}

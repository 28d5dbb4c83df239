ghost use Rattle.std.specs.Prelude.{◌≡◌, ◌∷◌, length, IsTrue};
ghost use Rattle.std.specs.List.{list_all};
ghost use Rattle.wh_version.specs.Lasting.{numbered_from, count_to, lies_in_front, is_gone_by};
ghost use Rattle.wh_version.specs.Lasting.{partitions_in};

use crate::mark::last_mark;
use crate::{Lasting, VersionMark};
use std::alloc::Global;

/// The versions of one table. Each partition stands once: a version has those that were there when
/// it was pushed, and that weren't gone by then.
#[derive(Debug, Drop)]
pub struct History {
    /// By their numbers, which rise by one from 1.
    pub(crate) kept: Vec<Lasting>,
    /// The version with which the table was created, and those that were pushed since.
    pub(crate) first: VersionMark,
    pub(crate) later: Vec<VersionMark>,
    /// Whether the table was created without a version: the first mark is none then.
    pub(crate) starts_empty: bool,
    /// The last place at which a partition went, 0 for none: versions since then may have been
    /// taken back.
    pub(crate) last_going: usize,
    ghost nothing: { first.partitions ≡ 0 },
    ghost front: { IsTrue (lies_in_front starts_empty first) },
    ghost numbers: { IsTrue (numbered_from 1 (partitions_in kept.items)) },
    ghost marks: { IsTrue (count_to 0 (first ∷ later.items) (length kept.items)) },
    ghost gone: { IsTrue (list_all (is_gone_by (length later.items)) kept.items) },
    ghost went: { IsTrue (list_all (is_gone_by last_going) kept.items) },
}

impl History {
    ghost use Rattle.std.specs.Prelude.{◌≡◌, ◌≤◌, ◌^◌, [], ◌∷◌, true, false, filter, option_map};
    ghost use Rattle.std.specs.Prelude.{nat_eq};
    ghost use Rattle.std.specs.List.{list_any};
    ghost use Rattle.wh_state.specs.State.{version_at, last_of};
    ghost use Rattle.wh_version.specs.Lasting.{is_standing, partitions_in, filed_in};
    ghost use Rattle.wh_version.specs.History.{versions_of, nexts_of, standing_in, partitions_of};
    ghost use Rattle.wh_version.specs.History.{filed_of, next_in};

    /// One version, with nothing in it. Takes no memory.
    pub fn new(alloc: Global, stamp: u64) -> History
        ensures versions { versions_of result ≡ version_at stamp [] ∷ [] }
        ensures nexts { nexts_of result ≡ 1 ∷ [] }
        ensures partitions { partitions_of result ≡ [] }
        ensures filed { filed_of result ≡ [] }
        ensures full { result.starts_empty ≡ false }
    {
        let first = VersionMark {
            stamp,
            data_timestamp: stamp,
            partitions: 0,
        };
        History {
            kept: Vec::new(alloc),
            first,
            later: Vec::new(alloc),
            starts_empty: false,
            last_going: 0,
        }
    }

    /// No version yet. Takes no memory.
    pub fn empty(alloc: Global) -> History
        ensures versions { versions_of result ≡ [] }
        ensures nexts { nexts_of result ≡ 1 ∷ [] }
        ensures partitions { partitions_of result ≡ [] }
        ensures filed { filed_of result ≡ [] }
        ensures empty { result.starts_empty ≡ true }
    {
        let first = VersionMark {
            stamp: 0,
            data_timestamp: 0,
            partitions: 0,
        };
        History {
            kept: Vec::new(alloc),
            first,
            later: Vec::new(alloc),
            starts_empty: true,
            last_going: 0,
        }
    }

    /// The data timestamp of the last version, if there is one.
    pub fn last_timestamp(&self) -> Option<u64>
        ensures { result ≡ option_map (λ v. v.data_timestamp) (last_of (versions_of self.now)) }
    {
        if self.count() == 0 {
            return None;
        }
        Some(last_mark(self.first, &self.later).data_timestamp)
    }

    /// The number that the next partition has.
    pub fn next_partition(&self) -> u64
        ensures number { result ≡ next_in (nexts_of self.now) }
        ensures bounded { result ≤ 2 ^ 63 }
    {
        self.kept.len() as u64 + 1
    }

    /// Whether the last version has the partition of that number.
    pub fn stands(&self, number: u64) -> bool
        ensures { result ≡ list_any (λ p. nat_eq number p.number)
            (standing_in (versions_of self.now)) }
    {
        let number = number as usize;
        if number == 0 || self.kept.len() < number {
            return false;
        }
        let one = &self.kept[number - 1];
        one.stands()
    }

    /// Each partition of each version, by rising number.
    pub fn kept(&self) -> &[Lasting]
        ensures kept { partitions_in result.now ≡ partitions_of self.now }
        ensures filed { filed_in result.now ≡ filed_of self.now }
        ensures standing { partitions_in (filter is_standing result.now)
            ≡ standing_in (versions_of self.now) }
    {
        self.kept.as_slice()
    }
}

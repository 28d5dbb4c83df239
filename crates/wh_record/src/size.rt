ghost use Rattle.std.specs.Prelude.{◌≡◌, ◌+◌, ◌*◌, length, IfOk};
ghost use Rattle.std.specs.List.{flat_map};
ghost use Rattle.wh_frame.specs.Spelling.{partition_bytes};
ghost use Rattle.wh_state.specs.Commit.{PushesVersion};
ghost use Rattle.wh_state.specs.Spelling.{change_bytes};
ghost use Rattle.wh_record.specs.Laws.{AllSpelled, AllWithin};
ghost use Rattle.wh_record.specs.Places as places;
ghost use Rattle.wh_record.specs.View.{version_change_of, written_of};

use crate::encoding::write_plain;
use crate::groups_size::groups_size;
use crate::{ChangeIn, OutlinedChange, OutlinedVersion};
use std::alloc::{AllocError, Global};
use wh_filed::{FiledPartition, filed_from};
use wh_part::Outline;
use wh_value::Bytes;

/// The bytes of a new version in front of its partitions, by the numbers of those that go.
fn head_size(removed: &[u64]) -> Result<u64, AllocError>
    ensures { IfOk result (λ size. size ≡ 33 + 8 * length removed.now) }
{
    let removed = removed.len() as u64;
    let size = removed.checked_mul(8).ok_or(AllocError)?;
    // a tag, 24 bytes of numbers and two counts
    size.checked_add(33).ok_or(AllocError)
}

/// The bytes of some partitions, and those before them.
fn partitions_size(before: u64, outlines: &[Outline]) -> Result<u64, AllocError>
    ensures { IfOk result (λ size. size
        ≡ before + length (flat_map partition_bytes outlines.now)) }
{
    let mut size = before;
    for outline in outlines {
        size = size.checked_add(outline.size()).ok_or(AllocError)?;
    }
    Ok(size)
}

#[tactic(auto, using(crate::proofs::PlaceLaws::version_size))]
fn version_size(version: &OutlinedVersion) -> Result<u64, AllocError>
    ensures { IfOk result (λ size. size
        ≡ places.change_size (PushesVersion (version_change_of version.now))) }
{
    partitions_size(head_size(&version.removed)?, &version.added)
}

/// By writing it.
fn written_size(alloc: Global, change: &OutlinedChange) -> Result<u64, AllocError>
    ensures { IfOk result (λ size. size ≡ length (change_bytes (written_of change.now))) }
{
    let mut scratch = Bytes::new(alloc);
    write_plain(&mut scratch, change)?;
    Ok(scratch.len() as u64)
}

impl OutlinedVersion {
    ghost use Rattle.std.specs.Prelude.{◌≡◌, IfOk};
    ghost use Rattle.wh_filed.specs.Filed.{partitions_filed};
    ghost use Rattle.wh_record.specs.Places as places;
    ghost use Rattle.wh_record.specs.View.{version_change_of};

    /// The numbers of the partitions that go, and those that come, by where they stand. The
    /// change's tag stands at that position.
    pub fn filed(
        self,
        alloc: Global,
        at: u64,
    ) -> Result<(Vec<u64>, Vec<FiledPartition>), AllocError>
        ensures removed { IfOk result (λ found. found.0.items ≡ self.removed.items) }
        ensures placed { IfOk result (λ found. found.1.items
            ≡ places.filed_in_version at (version_change_of self)) }
        ensures same { IfOk result (λ found. partitions_filed found.1.items
            ≡ self.added.items) }
    {
        let size = head_size(&self.removed)?;
        let first = at.checked_add(size).ok_or(AllocError)?;
        let filed = filed_from(alloc, self.id, first, self.added)?;
        Ok((self.removed, filed))
    }
}

impl OutlinedChange {
    ghost use Rattle.std.specs.Prelude.{◌≡◌, IfOk};
    ghost use Rattle.wh_record.specs.Places as places;
    ghost use Rattle.wh_record.specs.View.{change_of};

    /// How many bytes the change has in a commit's record, its tag too. Those of a new version and
    /// of groups are counted alone. `AllocError` is also the answer where they are no number of 64
    /// bits, or where `Commit::encode` refuses another change.
    #[tactic(auto, using(crate::proofs::SizeLaws::groups_size))]
    pub fn size(&self, alloc: Global) -> Result<u64, AllocError>
        ensures { IfOk result (λ size. size ≡ places.change_size (change_of self.now)) }
    {
        match self {
            ChangeIn::PushesVersion(version) => version_size(version),
            ChangeIn::SetsGroups { groups, .. } => groups_size(groups),
            _ => written_size(alloc, self),
        }
    }
}

/// The partitions that a commit adds stand in its payload, and the bytes there spell them.
pub fn partitions_stand_in_payload()
    ensures spelled { AllSpelled }
    ensures within { AllWithin }
{}

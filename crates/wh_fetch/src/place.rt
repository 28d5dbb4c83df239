//! Partitions as they are read from their places in a file.
ghost use Rattle.std.specs.Prelude.{◌≡◌, ◌+◌, ◌<◌, List, ℕ, Some, IfOk, IfSome, IfNone};
ghost use Rattle.wh_world.specs.Bytes.{part_at};
ghost use Rattle.wh_fetch.specs.Place.{spelled, describes, IsPartAt, IsDamaged};
ghost use Rattle.wh_fetch.specs.Device.{Reads};

use crate::FetchFault;
use std::alloc::{AllocError, Global};
use wh_part::{NumberedRow, PartMeta, Partition, ReadError};
use wh_world::Disk;

/// The partition that is described, read from its place in the memory of spare rows. None where
/// there is none.
pub(crate) fn read_part<D: Disk>(
    disk: &mut D,
    alloc: Global,
    spare: &mut Vec<NumberedRow>,
    part: &PartMeta,
) -> Result<Option<Partition>, FetchFault>
    ensures found { IfOk result (λ found. IfSome found (IsPartAt (D.bytes disk.old) part.now)) }
    ensures none { IfOk result (λ found. IfNone found
        (IsDamaged (D.bytes disk.old) (D.size disk.old) part.now)) }
    ensures reads { Reads D.Disk disk.old disk.new result }
{
    let Some(bytes) = read_place(disk, alloc, part.at, part.length)? else {
        return Ok(None);
    };
    let Some(found) = whole(alloc, spare, bytes.as_slice(), part.columns.len())? else {
        return Ok(None);
    };
    if !is_described(part, &found) {
        return Ok(None);
    }
    Ok(Some(found))
}

/// Whether the partition is as described, but for the bounds of its columns.
pub(crate) fn is_described(part: &PartMeta, found: &Partition) -> bool
    ensures { result ≡ describes part.now found.now }
{
    part.id.number == found.number()
        && part.rows == found.rows().len()
        && part.first == found.first()
        && part.last == found.last()
}

// The bytes of a place. None where the file has no such place.
#[tactic(auto, using(crate::specs::Device::only_read_by, crate::specs::Device::only_read_on))]
fn read_place<D: Disk>(
    disk: &mut D,
    alloc: Global,
    at: u64,
    length: u64,
) -> Result<Option<Vec<u8>>, FetchFault>
    ensures content { IfOk result (λ found. IfSome found (λ read. (bytes : List ℕ)
        → D.bytes disk.old ≡ Some bytes → read.items ≡ part_at at length bytes)) }
    ensures none { IfOk result (λ found. IfNone found (D.size disk.old < at + length)) }
    ensures reads { Reads D.Disk disk.old disk.new result }
{
    let size = disk.len()?;
    if length > size || at > size - length {
        return Ok(None);
    }
    let mut bytes = vec![in alloc; 0u8; length as usize]?;
    disk.read(at, bytes.as_mut_slice())?;
    Ok(Some(bytes))
}

// The partition that all of the bytes spell.
fn whole(
    alloc: Global,
    spare: &mut Vec<NumberedRow>,
    bytes: &[u8],
    width: usize,
) -> Result<Option<Partition>, AllocError>
    ensures { IfOk result (λ found. found ≡ spelled width bytes.now) }
{
    let Ok(width) = u32::try_from(width) else {
        return Ok(None);
    };
    match Partition::read_over(alloc, spare, bytes, width) {
        Ok((part, [])) => Ok(Some(part)),
        Ok(_) | Err(ReadError::Malformed) => Ok(None),
        Err(ReadError::Memory) => Err(AllocError),
    }
}

ghost use Rattle.std.specs.Prelude.{◌≡◌, IfOk};
ghost use Rattle.wh_filed.specs.Filed.{partitions_filed};
ghost use Rattle.wh_filed.specs.Filing as specs;

use crate::FiledPartition;
use std::alloc::{AllocError, Global};
use wh_part::Outline;

/// The partitions of an object whose bytes stand one behind the other from a position on. A
/// position that passes 64 bits is taken for memory that ran out: no file is so long.
pub fn filed_from(
    alloc: Global,
    object: u32,
    at: u64,
    outlines: Vec<Outline>,
) -> Result<Vec<FiledPartition>, AllocError>
    ensures placed { IfOk result (λ filed. filed.items
        ≡ specs.filed_from object at outlines.items) }
    ensures same { IfOk result (λ filed. partitions_filed filed.items ≡ outlines.items) }
{
    let mut filed = Vec::with_capacity(alloc, outlines.len())?;
    let mut next = at;
    for outline in outlines {
        let length = outline.size();
        filed.push(FiledPartition::of(outline, object, next))?;
        next = next.checked_add(length).ok_or(AllocError)?;
    }
    Ok(filed)
}

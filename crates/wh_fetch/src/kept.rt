//! The partitions that a `DiskFetch` keeps, by the positions of their places.
ghost use Rattle.std.specs.Prelude.{◌≡◌, IfOk, IfSome, IfNone};
ghost use Rattle.std.specs.Arc.{arc_value};
ghost use Rattle.wh_fetch.specs.Cache.{fits, IsKept, IsKeptAs, StaysBeside};

use crate::place::is_described;
use lru::LruCache;
use std::alloc::AllocError;
use std::sync::Arc;
use wh_part::{PartMeta, Partition};

/// A partition that was read, with how many bytes its place has, and how many values a row of it.
#[derive(Drop)]
pub(crate) struct Kept {
    pub(crate) length: u64,
    pub(crate) width: usize,
    pub(crate) part: Arc<Partition>,
}

/// The partition that is described, if it is kept. What is kept of its place may be another one.
pub(crate) fn recall(
    cache: &LruCache<u64, Kept>,
    part: &PartMeta,
) -> Result<Option<Arc<Partition>>, AllocError>
    ensures found { IfOk result (λ found. IfSome found (λ given.
        IsKeptAs part.now cache.now.entries (arc_value given))) }
    ensures none { IfOk result (λ found. IfNone found (IsKept part.now cache.now.entries → ⊥)) }
{
    let Some(kept) = cache.peek(&part.at) else {
        return Ok(None);
    };
    if !is_fitting(part, kept) {
        return Ok(None);
    }
    Ok(Some(Arc::try_clone(&kept.part)?))
}

fn is_fitting(part: &PartMeta, entry: &Kept) -> bool
    ensures { result ≡ fits part.now entry.now }
{
    entry.length == part.length
        && entry.width == part.columns.len()
        && is_described(part, &entry.part)
}

/// What is kept stays right where the file changes behind it.
pub fn stays_beside()
    ensures { StaysBeside }
{}

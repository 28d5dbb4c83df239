//! Partitions that aren't written yet, in front of those of another fetch.
ghost use Rattle.std.specs.Prelude.{◌≡◌};

use crate::{Fetch, FetchFault, MemFetch};
use std::sync::Arc;
use wh_part::{PartId, PartMeta, Partition};

/// Partitions in memory, in front of those of another fetch. It owns no memory: it notes what it
/// is asked for in a list of its caller's, who knows afterwards what became of the fetch below.
#[derive(Drop)]
pub struct Overlay<'a, F> {
    held: &'a MemFetch,
    below: &'a mut F,
    asked: &'a mut Vec<PartId>,
}

impl<'a, F: Fetch> Overlay<'a, F> {
    /// The partitions of `held` in front of those of `below`.
    pub fn new(held: &'a MemFetch, below: &'a mut F, asked: &'a mut Vec<PartId>) -> Overlay<'a, F>
        ensures held { result.held.now ≡ held.now }
        ensures below { result.below.now ≡ below.old }
        ensures asked { result.asked.now ≡ asked.old }
        ensures same_below { result.below.ghost_name ≡ below.entry.ghost_name }
        ensures same_asked { result.asked.ghost_name ≡ asked.entry.ghost_name }
    {
        Overlay { held, below, asked }
    }
}

impl<'a, F: Fetch> Fetch for Overlay<'a, F> {
    ghost use Rattle.wh_fetch.specs.Overlay.{Covers, contents_of, GoesOn};
    ghost use Rattle.wh_fetch.specs.Overlay.{goes_none, goes_on, still_covers, same_contents};

    ghost covers = { Covers F.Fetch };

    ghost contents = { contents_of F.Fetch };

    ghost damage = { λ over. F.damage over.below.now };

    ghost asked = { λ over. over.asked.now.items };

    ghost faults = { λ over. F.faults over.below.now };

    ghost reads = { λ over. F.reads over.below.now };

    ghost stays = { GoesOn F.Fetch };

    ghost stays_so = { λ over. goes_none _ F.stays_so over };

    ghost stays_on = { λ first then last one two. goes_on _ F.stays_on first then last one two };

    ghost covers_on = { λ first last part on here.
        still_covers _ F.covers_on first last part on here };

    ghost contents_on = { λ first last part on here.
        same_contents _ F.contents_on first last part on here };

    fn fetch(&mut self, part: &PartMeta) -> Result<Arc<Partition>, FetchFault> {
        self.asked.push(part.id)?;
        match self.held.find(part.id) {
            Some(found) => Ok(Arc::try_clone(found)?),
            None => self.below.fetch(part),
        }
    }

    fn fetched(&self) -> u64 {
        self.asked.len() as u64
    }
}

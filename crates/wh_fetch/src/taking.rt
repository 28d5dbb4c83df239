//! A partition from what is kept, or from the disk.
ghost use Rattle.std.specs.Prelude.{◌≡◌, ◌+◌, ◌<◌, ◌≤◌, ◌⊎◌, IfOk};
ghost use Rattle.std.specs.Bool.{OnTrue, OnFalse};
ghost use Rattle.std.specs.Arc.{arc_value};
ghost use Rattle.wh_fetch.specs.Fetch.{Asks, ReadsOnceEach};
ghost use Rattle.wh_fetch.specs.Place.{IsPartAt};
ghost use Rattle.wh_fetch.specs.Cache.{IsKept, Keeps};
ghost use Rattle.wh_fetch.specs.Device.{OnlyRead, ReadsOnce, Counts};
ghost use Rattle.wh_fetch.specs.DiskFetch.{told_of, faults_of, damage_of, IsRight, IsLater};
ghost use Rattle.wh_fetch.specs.DiskFetch.{IsSound, IsSpoilt};

use crate::kept::{Kept, recall};
use crate::place::read_part;
use crate::{DiskFetch, Fetch, FetchFault};
use std::sync::Arc;
use wh_part::{PartMeta, Partition};
use wh_world::Disk;

impl<D: Disk> DiskFetch<D> {
    /// The partition, from what is kept or from the disk. A hit, which asks for what is kept,
    /// makes no call of the disk.
    pub fn take(&mut self, part: &PartMeta) -> Result<Arc<Partition>, FetchFault>
        requires { IsRight D.Disk self.old }
        ensures found { IfOk result
            (λ given. IsPartAt (told_of D.Disk self.old) part.now (arc_value given)) }
        ensures keeps { Keeps (told_of D.Disk self.old) self.old.reach self.old.cache
            self.new.cache part.now result }
        ensures asked { Asks result part.now.id self.old.asked.items self.new.asked.items }
        ensures reach { self.new.reach ≡ self.old.reach }
        ensures hit { IsKept part.now self.old.cache.entries → self.new.disk ≡ self.old.disk }
        ensures only_read { OnlyRead D.Disk self.old.disk self.new.disk }
        ensures reads { ReadsOnceEach (D.reads self.old.disk) (D.reads self.new.disk)
            self.old.asked.items self.new.asked.items }
        ensures counts { Counts (faults_of D.Disk self.old) (faults_of D.Disk self.new) result }
        ensures later { IsLater D.Disk self.old self.new }
        ensures damaged { IsSound D.Disk self.old self.new result
            ⊎ IsSpoilt D.Disk self.old self.new part.now result }
    {
        self.asked.push(part.id)?;
        if let Some(found) = recall(&self.cache, part)? {
            self.cache.promote(&part.at);
            return Ok(found);
        }
        self.load(part)
    }

    // Reads a partition, and keeps it where it lies in front of the reach.
    fn load(&mut self, part: &PartMeta) -> Result<Arc<Partition>, FetchFault>
        ensures found { IfOk result
            (λ given. IsPartAt (told_of D.Disk self.old) part.now (arc_value given)) }
        ensures keeps { Keeps (told_of D.Disk self.old) self.old.reach self.old.cache
            self.new.cache part.now result }
        ensures rest { (self.new.asked ≡ self.old.asked) × (self.new.reach ≡ self.old.reach) }
        ensures only_read { OnlyRead D.Disk self.old.disk self.new.disk }
        ensures reads { ReadsOnce D.Disk self.old.disk self.new.disk }
        ensures counts { Counts (faults_of D.Disk self.old) (faults_of D.Disk self.new) result }
        ensures later { IsLater D.Disk self.old self.new }
        ensures damaged { IsSound D.Disk self.old self.new result
            ⊎ IsSpoilt D.Disk self.old self.new part.now result }
    {
        let alloc = *self.asked.allocator();
        let Some(found) = read_part(&mut self.disk, alloc, &mut self.spare, part)? else {
            self.spoilt = self.spoilt.saturating_add(1);
            self.damaged = Some(part.at);
            return Err(FetchFault::Read);
        };
        let shared = Arc::new(alloc, found)?;
        if !is_in_front(part, self.reach) {
            return Ok(shared);
        }
        let given = Arc::try_clone(&shared)?;
        let kept = Kept {
            length: part.length,
            width: part.columns.len(),
            part: shared,
        };
        let gone = self.cache.push(part.at, kept)?;
        self.reuse(gone);
        Ok(given)
    }

    // The rows of what is kept no longer are spare, unless they are still in use.
    fn reuse(&mut self, gone: Option<(u64, Kept)>)
        ensures kept { self.new.cache ≡ self.old.cache }
        ensures disk { (self.new.disk ≡ self.old.disk) × (self.new.reach ≡ self.old.reach) }
        ensures asked { self.new.asked ≡ self.old.asked }
        ensures damage { damage_of self.new ≡ damage_of self.old }
    {
        let Some((_, Kept { part, .. })) = gone else {
            return;
        };
        if let Some(part) = Arc::into_inner(part) {
            self.spare = part.into_rows();
        }
    }
}

// Whether its place lies in so many of the first bytes.
fn is_in_front(part: &PartMeta, reach: u64) -> bool
    ensures front { OnTrue result (part.now.at + part.now.length ≤ reach) }
    ensures behind { OnFalse result (reach < part.now.at + part.now.length) }
{
    part.length <= reach && part.at <= reach - part.length
}

impl<D: Disk> Fetch for DiskFetch<D> {
    ghost use Rattle.wh_part.specs.declared.meta.PartMeta.{PartMeta};
    ghost use Rattle.wh_fetch.specs.Place.{contents_at};
    ghost use Rattle.wh_fetch.specs.DiskFetch.{told_of, faults_of, damage_of, Covers, GoesOn};
    ghost use Rattle.wh_fetch.specs.DiskFetch.{goes_none, goes_on, still_covers, same_contents};

    ghost covers = { Covers D.Disk };

    ghost contents = { λ fetch part. contents_at (told_of D.Disk fetch) part };

    ghost damage = { damage_of };

    ghost asked = { λ fetch. fetch.asked.items };

    ghost faults = { faults_of D.Disk };

    ghost reads = { λ fetch. D.reads fetch.disk };

    ghost stays = { GoesOn D.Disk };

    ghost stays_so = { λ fetch. goes_none _ fetch };

    ghost stays_on = { λ first then last one two. goes_on _ first then last one two };

    ghost covers_on = { λ first last part on here. still_covers _ first last part on here };

    ghost contents_on = { λ first last part on here. same_contents _ first last part on };

    fn fetch(&mut self, part: &PartMeta) -> Result<Arc<Partition>, FetchFault> {
        self.take(part)
    }

    fn fetched(&self) -> u64 {
        self.asked.len() as u64
    }
}

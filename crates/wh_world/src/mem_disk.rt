ghost use Rattle.std.specs.Prelude.{◌≡◌, ◌↔◌, ◌⊎◌, ◌+◌, ◌-◌, ◌<◌, ◌≤◌, ◌^◌, [], ◌∷◌, min, max, ℕ};
ghost use Rattle.std.specs.Prelude.{List, Option, Some, length, option_map, vec_len, vec_capacity};
ghost use Rattle.std.specs.Prelude.{IsErr, IsTrue, IfOk, OnOk, OnErr};
ghost use Rattle.wh_world.specs.Bytes.{written, part_at, Torn};
ghost use Rattle.wh_world.specs.Calls.{next, is_due};
ghost use Rattle.wh_world.specs.Crash.{Follows, NoOthers, Only};
ghost use Rattle.wh_world.specs.Cut.{picked};
ghost use Rattle.wh_world.specs.Events.{wrote, tore, synced, content, WasImage};
ghost use Rattle.wh_world.specs.Images.{is_shown, counts_now, only_now, some_same};
ghost use Rattle.std.proofs.Common.{subst};
ghost use Rattle.wh_world.specs.MemDisk.{content_of, synced_of, images_of, fresh, done, refused};
ghost use Rattle.wh_world.specs.MemDisk.{read_once, logged, torn, IsWrite, GoesOn};

use crate::calls::Calls;
use crate::imaging::{Tear, image_of};
use crate::logged::Logged;
use crate::{Disk, Failed};
use std::alloc::{AllocError, Global};
use std::marker::Model;

/// A disk in memory. It keeps all that was written, and so what a crash may leave at each moment.
#[derive(Debug, Drop)]
pub struct MemDisk {
    first: Vec<u8>,
    bytes: Vec<u8>,
    log: Vec<Logged>,
    pieces: Vec<u8>,
    room: u64,
    spare: u64,
    reads: u64,
    calls: Calls,
}

impl Model for MemDisk {
    ghost use Rattle.std.specs.Prelude.{◌+◌, ◌≤◌, [], vec_len, vec_capacity};
    ghost use Rattle.wh_world.specs.MemDisk.{DiskState};
    ghost use Rattle.wh_world.specs.Logged.{events, Agrees};

    ghost Value = { DiskState };

    ghost view = { λ d. record {
      first = d.first.items;
      past = events [] d.log.items d.pieces.items;
      room = d.room;
      spare = d.spare;
      reads = d.reads;
      calls = d.calls;
    } };

    // What it keeps, and the memory for all that it still takes.
    ghost invariant = { λ d. Agrees d.first.items d.bytes.items d.pieces.items d.log.items
        × (vec_len d.bytes + d.room ≤ vec_capacity d.bytes)
        × (vec_len d.pieces + d.room ≤ vec_capacity d.pieces)
        × (vec_len d.log + d.spare ≤ vec_capacity d.log) };
}

impl MemDisk {
    /// A disk with these bytes, all of them synced, and the memory for writes of `room` bytes and
    /// for `calls` writes and syncs in all. A write that fails counts among these, a sync that
    /// fails doesn't. The calls whose numbers, from 1, are in `failing` fail; `fault_count` has
    /// none.
    pub fn new(
        alloc: Global,
        bytes: Vec<u8>,
        room: u64,
        calls: u64,
        failing: Vec<u64>,
    ) -> Result<MemDisk, AllocError>
        ensures fresh { IfOk result (λ disk. disk ≡ fresh bytes.items room calls failing.items) }
        ensures bytes { IfOk result (λ disk. content_of disk ≡ bytes.items) }
        ensures durable { IfOk result (λ disk. Only bytes.items (images_of disk)) }
    {
        let size = room.checked_add(bytes.len() as u64).ok_or(AllocError)?;
        let mut copy = Vec::with_capacity(alloc, size as usize)?;
        copy.extend_from_slice(&bytes)?;
        Ok(MemDisk {
            first: bytes,
            bytes: copy,
            log: Vec::with_capacity(alloc, calls as usize)?,
            pieces: Vec::with_capacity(alloc, room as usize)?,
            room,
            spare: calls,
            reads: 0,
            calls: Calls::new(failing),
        })
    }

    /// What a read gives.
    pub fn bytes(&self) -> &[u8]
        ensures { result.now ≡ content_of self.now }
    {
        &self.bytes
    }

    /// One of the files that a crash may leave now. Pick 0 gives what a read gave at the last sync,
    /// and pick 1 what a read gives. Any other has the writes since the last sync in part: of
    /// `pick - 2`, the quotient by 257 is the cut and the remainder the fill. Of the bytes of these
    /// writes, in the order of the calls, the first ones up to the cut are written as they were
    /// given, and in the place of each byte behind these stands the fill. At the fill 256 it isn't
    /// written at all, and the file doesn't grow for it. The bytes of a write that failed count as
    /// well; those up to the cut are left as the file has them.
    #[tactic(auto, using(crate::proofs::Imaged::shown_image))]
    pub fn image(&self, alloc: Global, pick: u64) -> Result<Vec<u8>, AllocError>
        ensures image { IfOk result (λ image. images_of self.now image.items) }
        ensures synced { pick ≡ 0 → IfOk result (λ image. image.items ≡ synced_of self.now) }
        ensures shown { pick ≡ 1 → IfOk result (λ image. image.items ≡ content_of self.now) }
        ensures picked { 2 ≤ pick → IfOk result (λ image. image.items ≡ picked self.now pick) }
    {
        if pick == 1 {
            return Vec::from_slice(alloc, &self.bytes);
        }
        image_of(alloc, &self.first, &self.log, &self.pieces, Tear::of(pick))
    }
}

impl MemDisk {
    // Counts a call, and tells whether it is to fail.
    fn count(&mut self) -> bool
        ensures due { result ≡ is_due self.old.calls }
        ensures new { self.new ≡ done self.old }
    {
        self.calls.count()
    }

    // Counts a fault of the call that was counted last.
    fn fail(&mut self) -> Failed
        ensures new { self.new ≡ record self.old {
          calls = record self.old.calls { faults = next self.old.calls.faults };
        } }
        ensures later { self.old.calls.faults ≤ self.new.calls.faults }
    {
        self.calls.fail()
    }

    fn keep_torn(&mut self, at: u64, size: u64)
        requires { 0 < self.old.spare }
        ensures { self.new ≡ record self.old {
          past = tore at size ∷ self.old.past;
          spare = self.old.spare - 1;
        } }
    {
        self.spare -= 1;
        self.log.push(Logged::Tore { at, size }).unwrap();
    }

    fn keep_write(&mut self, at: u64, piece: &[u8])
        requires place { at ≤ length (content_of self.old) }
        requires room { length piece.now ≤ self.old.room }
        requires spare { 0 < self.old.spare }
        ensures { self.new ≡ record self.old {
          past = wrote at piece.now ∷ self.old.past;
          room = self.old.room - length piece.now;
          spare = self.old.spare - 1;
        } }
    {
        let size = piece.len() as u64;
        self.spare -= 1;
        self.room -= size;
        self.log.push(Logged::Wrote { at, size }).unwrap();
        self.pieces.extend_from_slice(piece).unwrap();
        overwrite(&mut self.bytes, at as usize, piece);
    }

    fn keep_sync(&mut self)
        requires { 0 < self.old.spare }
        ensures { self.new ≡ record self.old {
          past = synced ∷ self.old.past;
          spare = self.old.spare - 1;
        } }
    {
        self.spare -= 1;
        self.log.push(Logged::Synced).unwrap();
    }
}

/// Puts a piece in the place of what is there, or at the end, within the memory at hand.
pub fn overwrite(bytes: &mut Vec<u8>, at: usize, piece: &[u8])
    requires place { at ≤ length bytes.old.items }
    requires room { vec_len bytes.old + length piece.now ≤ vec_capacity bytes.old }
    ensures items { bytes.new.items ≡ written bytes.old.items at piece.now }
    ensures capacity { vec_capacity bytes.old ≤ vec_capacity bytes.new }
    ensures len { vec_len bytes.new ≤ vec_len bytes.old + length piece.now }
{
    if piece.len() <= bytes.len() - at {
        bytes[at..at + piece.len()].copy_from_slice(piece);
    } else {
        bytes.truncate(at);
        bytes.extend_from_slice(piece).unwrap();
    }
}

impl Disk for MemDisk {
    ghost bytes = { λ d. Some (content_of d) };

    ghost may_leave = { images_of };

    ghost moment = { λ d. length d.past };

    ghost left_since = { λ d. WasImage d.first d.past };

    ghost faults = { λ d. d.calls.faults };

    ghost reads = { λ d. d.reads };

    ghost size = { λ d. length (content_of d) };

    ghost spans = { λ d b is. Prim.cc };

    ghost shown = { λ d b is.
        subst (images_of d) (some_same (content_of d) b is) (is_shown d.first d.past) };

    ghost counts_now = { λ d. counts_now d.first d.past };

    ghost only_now = { λ d. only_now d.first d.past };

    fn len(&mut self) -> Result<u64, Failed>
        ensures failed_exactly { IsErr result ↔ IsTrue (is_due self.old.calls) }
        ensures size { IfOk result (λ n. n ≡ length (content_of self.old)) }
        ensures new { OnOk result (self.new ≡ done self.old) }
        ensures new_err { OnErr result (self.new ≡ refused self.old) }
        ensures time { GoesOn self.old self.new }
        ensures later { self.old.calls.faults ≤ self.new.calls.faults }
    {
        if self.calls.count() {
            return Err(self.calls.fail());
        }
        Ok(self.bytes.len() as u64)
    }

    fn fault_count(&self) -> u64 {
        self.calls.faults()
    }

    fn read(&mut self, at: u64, buf: &mut [u8]) -> Result<(), Failed>
        requires { at + length buf.old ≤ length (content_of self.old) }

        ensures failed_exactly { IsErr result ↔ IsTrue (is_due self.old.calls) }
        ensures content { OnOk result (buf.new
            ≡ part_at at (length buf.new) (content_of self.old)) }
        ensures new { OnOk result (self.new ≡ read_once (done self.old)) }
        ensures new_err { OnErr result (self.new ≡ read_once (refused self.old)) }
        ensures reads { (self.old.reads ≤ self.new.reads) × (self.new.reads ≤ self.old.reads + 1) }
        ensures time { GoesOn self.old self.new }
        ensures later { self.old.calls.faults ≤ self.new.calls.faults }
    {
        self.reads = self.reads.saturating_add(1);
        if self.calls.count() {
            return Err(self.calls.fail());
        }
        let at = at as usize;
        buf.copy_from_slice(&self.bytes[at..at + buf.len()]);
        Ok(())
    }

    fn write_at(&mut self, at: u64, piece: &[u8]) -> Result<(), Failed>
        requires place { at ≤ length (content_of self.old) }
        requires end { at + length piece.now ≤ 2 ^ 40 }

        ensures written { IsWrite self.old self.new at piece.now result }

        // What the trait promises.
        ensures size { OnOk result (length (content_of self.new)
            ≡ max (length (content_of self.old)) (at + length piece.now)) }
        ensures torn { OnErr result (content_of self.new ≡ content_of self.old) }
        ensures crash { Follows (Torn at (length piece.now))
            (images_of self.old) (images_of self.new) }
        ensures time { GoesOn self.old self.new }
        ensures later { self.old.calls.faults ≤ self.new.calls.faults }
    {
        let fails = self.count();
        let size = piece.len() as u64;
        if size > self.room || self.spare == 0 {
            return Err(self.fail());
        }
        if fails {
            self.keep_torn(at, size);
            return Err(self.fail());
        }
        self.keep_write(at, piece);
        Ok(())
    }

    fn sync(&mut self) -> Result<(), Failed>
        // It fails exactly where it is to, or where the disk takes no more calls.
        ensures failed_exactly { IsErr result
            ↔ (IsTrue (is_due self.old.calls) ⊎ (self.old.spare ≡ 0)) }
        ensures new { OnOk result (self.new ≡ logged self.old synced 0) }
        ensures new_err { OnErr result (self.new ≡ refused self.old) }

        // What the trait promises.
        ensures durable { OnOk result (Only (content_of self.old) (images_of self.new)) }
        ensures crash { NoOthers (images_of self.old) (images_of self.new) }
        ensures time { GoesOn self.old self.new }
        ensures later { self.old.calls.faults ≤ self.new.calls.faults }
    {
        let fails = self.count();
        if fails || self.spare == 0 {
            return Err(self.fail());
        }
        self.keep_sync();
        Ok(())
    }
}

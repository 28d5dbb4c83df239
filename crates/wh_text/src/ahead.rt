ghost use Rattle.std.specs.Prelude.{◌≡◌, ◌<◌, ◌≤◌, vec_len, OnOk, IfErr};

use crate::ScriptFault;
use std::alloc::Global;
use std::marker::Model;
use wh_world::Source;

/// The most bytes of a script.
pub(crate) const MAX_BYTES: u64 = 1 << 30;

// how many bytes are taken at once
const READ_BYTES: usize = 65536;

/// The bytes that were taken from a source and not used yet. Contracts see them, and how many were
/// taken.
#[derive(Debug, Drop)]
pub(crate) struct Ahead {
    alloc: Global,
    // they stand from `at` to `end`
    buffer: Vec<u8>,
    at: usize,
    end: usize,
    taken: u64,
}

impl Model for Ahead {
    ghost use Rattle.std.specs.Prelude.{◌≤◌, ◌+◌, ◌-◌, ◌^◌, take, drop, vec_len};
    ghost use Rattle.wh_text.specs.Ahead.{AheadState};

    ghost Value = { AheadState };

    ghost view = { λ a. record {
      bytes = take (a.end - a.at) (drop a.at a.buffer.items);
      taken = a.taken;
    } };

    ghost invariant = { λ a. (a.at ≤ a.end) × (a.end ≤ vec_len a.buffer)
        × (vec_len a.buffer ≤ 65536) × (a.end - a.at ≤ a.taken) × (a.taken ≤ 2 ^ 30 + 65536) };
}

impl Ahead {
    ghost use Rattle.std.specs.Prelude.{◌≡◌, ◌<◌, ◌≤◌, ◌+◌, ◌^◌, [], ◌∷◌, length, drop, Some};
    ghost use Rattle.std.specs.Prelude.{option_map};
    ghost use Rattle.std.specs.Prelude.{IfOk, OnOk, IfErr, IsErrOf, MatchOption, MatchBool, false};
    ghost use Rattle.wh_world.specs.Told.{Rose};
    ghost use Rattle.wh_text.specs.Ahead.{consumed, Uses, AtEnd, Fills, total};
    ghost use Rattle.wh_text.specs.Fault.{FaultFits};

    /// `taken` bytes are taken and used. Takes no memory.
    pub(crate) fn after(alloc: Global, taken: u64) -> Ahead
        requires most { taken ≤ 2 ^ 30 }
        ensures { result ≡ record { bytes = []; taken = taken } }
    {
        Ahead {
            alloc,
            buffer: Vec::new(alloc),
            at: 0,
            end: 0,
            taken,
        }
    }

    /// Uses the next byte. None at the end.
    pub(crate) fn take_byte<S: Source>(&mut self, source: &mut S) -> Result<Option<u8>, ScriptFault>
        requires { self.old.taken ≤ 2 ^ 30 }
        ensures turn { IfOk result (λ found. MatchOption found
            (AtEnd self.old self.new (S.left source.old) (S.left source.new))
            (λ byte. Uses self.old self.new (S.left source.old) byte (S.left source.new))) }
        ensures counts { total self.new (S.left source.new) ≡ total self.old (S.left source.old) }
        ensures short { OnOk result (self.new.taken ≤ 2 ^ 30) }
        ensures fault { IfErr result (λ fault. FaultFits (Some fault) self.new.taken) }
        ensures later { S.faults source.old ≤ S.faults source.new }
        ensures no_fault { OnOk result (S.faults source.new ≡ S.faults source.old) }
        ensures read { IsErrOf result ScriptFault.Read →
            Rose (S.faults source.old) (S.faults source.new) }
    {
        if !self.fill(source)? {
            return Ok(None);
        }
        Ok(Some(self.pop()))
    }

    /// Takes the first of the bytes away.
    fn pop(&mut self) -> u8
        requires { 0 < length self.old.bytes }
        ensures bytes { self.old.bytes ≡ result ∷ self.new.bytes }
        ensures taken { self.new.taken ≡ self.old.taken }
        ensures one { consumed self.new ≡ consumed self.old + 1 }
    {
        let byte = self.buffer[self.at];
        self.at += 1;
        byte
    }

    /// The bytes that are ahead.
    pub(crate) fn bytes(&self) -> &[u8]
        ensures { result.now ≡ self.now.bytes }
    {
        &self.buffer[self.at..self.end]
    }

    /// Takes so many of the first bytes away.
    pub(crate) fn skip(&mut self, count: usize)
        requires { count ≤ length self.old.bytes }
        ensures bytes { self.new.bytes ≡ drop count self.old.bytes }
        ensures taken { self.new.taken ≡ self.old.taken }
    {
        self.at += count;
    }

    /// Takes bytes from the source where none are ahead, and tells whether there are some now: none
    /// are at the end.
    fn fill<S: Source>(&mut self, source: &mut S) -> Result<bool, ScriptFault>
        requires { self.old.taken ≤ 2 ^ 30 }
        ensures some { IfOk result (λ some. MatchBool some
            (Fills self.old self.new (S.left source.old) (S.left source.new))
            (AtEnd self.old self.new (S.left source.old) (S.left source.new))) }
        ensures counts { total self.new (S.left source.new) ≡ total self.old (S.left source.old) }
        ensures short { OnOk result (self.new.taken ≤ 2 ^ 30) }
        ensures fault { IfErr result (λ fault. FaultFits (Some fault) self.new.taken) }
        ensures later { S.faults source.old ≤ S.faults source.new }
        ensures no_fault { OnOk result (S.faults source.new ≡ S.faults source.old) }
        ensures read { IsErrOf result ScriptFault.Read →
            Rose (S.faults source.old) (S.faults source.new) }
    {
        if self.at < self.end {
            return Ok(true);
        }
        make_room(self.alloc, &mut self.buffer)?;
        let Ok(count) = source.read(&mut self.buffer) else {
            return Err(ScriptFault::Read);
        };
        self.at = 0;
        self.end = count;
        self.taken += count as u64;
        if self.taken > MAX_BYTES {
            return Err(ScriptFault::TooLong { taken: self.taken });
        }
        Ok(count > 0)
    }
}

/// Makes the buffer, at the first read.
fn make_room(alloc: Global, buffer: &mut Vec<u8>) -> Result<(), ScriptFault>
    requires { vec_len buffer.old ≤ 65536 }
    ensures room { OnOk result (0 < vec_len buffer.new) }
    ensures most { (vec_len buffer.old ≤ vec_len buffer.new) × (vec_len buffer.new ≤ 65536) }
    ensures fault { IfErr result (λ fault. fault ≡ ScriptFault.OutOfMemory) }
{
    if buffer.len() > 0 {
        return Ok(());
    }
    let Ok(made) = Vec::from_elem(alloc, 0, READ_BYTES) else {
        return Err(ScriptFault::OutOfMemory);
    };
    *buffer = made;
    Ok(())
}

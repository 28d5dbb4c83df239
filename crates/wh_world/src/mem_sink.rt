ghost use Rattle.std.specs.Prelude.{◌≡◌, ◌↔◌, ◌⊎◌, ◌-◌, ◌++◌, ◌<◌, ◌≤◌, [], min, ℕ, Option, Some};
ghost use Rattle.std.specs.Prelude.{length, take, IsErr, IsTrue, IfOk, OnErr};
ghost use Rattle.wh_world.specs.Calls.{no_calls, is_due, passed, failed};

use crate::calls::Calls;
use crate::{Failed, Sink};
use std::alloc::{AllocError, Global};
use std::marker::Model;

/// A sink in memory. It fails exactly at the calls that it is told, and where it is full.
#[derive(Debug, Drop)]
pub struct MemSink {
    held: Vec<u8>,
    room: usize,
    calls: Calls,
}

impl Model for MemSink {
    ghost use Rattle.std.specs.Prelude.{◌+◌, ◌≤◌, vec_len, vec_capacity};
    ghost use Rattle.wh_world.specs.MemSink.{SinkState};

    ghost Value = { SinkState };

    ghost view = { λ s. record { held = s.held.items; room = s.room; calls = s.calls } };

    ghost invariant = { λ s. vec_len s.held + s.room ≤ vec_capacity s.held };
}

impl MemSink {
    /// An empty sink, with the memory for `room` bytes. The calls whose numbers, from 1, are in
    /// `failing` fail.
    pub fn new(alloc: Global, room: u64, failing: Vec<u64>) -> Result<MemSink, AllocError>
        ensures held { IfOk result (λ sink. sink.held ≡ []) }
        ensures room { IfOk result (λ sink. sink.room ≡ room) }
        ensures calls { IfOk result (λ sink. sink.calls ≡ no_calls failing.items) }
    {
        Ok(MemSink {
            held: Vec::with_capacity(alloc, room as usize)?,
            room: room as usize,
            calls: Calls::new(failing),
        })
    }

    /// The bytes that it has taken.
    pub fn held(&self) -> &[u8]
        ensures { result.now ≡ self.now.held }
    {
        &self.held
    }
}

impl Sink for MemSink {
    ghost held = { λ s. Some s.held };

    ghost faults = { λ s. s.calls.faults };

    fn write(&mut self, piece: &[u8]) -> Result<usize, Failed>
        requires { 0 < length piece.now }

        // It fails exactly where it is to or is full, and else takes as many bytes as fit.
        ensures failed_exactly { IsErr result
            ↔ (IsTrue (is_due self.old.calls) ⊎ (self.old.room ≡ 0)) }
        ensures gives { IfOk result (λ n. n ≡ min (length piece.now) self.old.room) }
        ensures count { IfOk result (λ n. 0 < n) }
        ensures new { IfOk result (λ n. self.new ≡ record {
          held = self.old.held ++ take n piece.now;
          room = self.old.room - n;
          calls = passed self.old.calls;
        }) }
        ensures new_err { OnErr result
            (self.new ≡ record self.old { calls = failed self.old.calls }) }
        ensures later { self.old.calls.faults ≤ self.new.calls.faults }
    {
        let fails = self.calls.count();
        if fails || self.room == 0 {
            return Err(self.calls.fail());
        }
        let n = piece.len().min(self.room);
        self.held.extend_from_slice(&piece[..n]).unwrap();
        self.room -= n;
        Ok(n)
    }
}

ghost use Rattle.std.specs.Prelude.{◌≡◌, ◌↔◌, ◌<◌, ◌≤◌, [], min, Some, length, take, drop, IsErr};
ghost use Rattle.std.specs.Prelude.{IsTrue, IfOk, OnErr};
ghost use Rattle.wh_world.specs.Calls.{no_calls, is_due, passed, failed};

use crate::calls::Calls;
use crate::{Failed, Source};
use std::marker::Model;

/// A source in memory: it gives its bytes, and fails exactly at the calls that it is told.
#[derive(Debug, Drop)]
pub struct MemSource {
    bytes: Vec<u8>,
    taken: usize,
    calls: Calls,
}

impl Model for MemSource {
    ghost use Rattle.std.specs.Prelude.{◌≤◌, drop, vec_len};
    ghost use Rattle.wh_world.specs.MemSource.{SourceState};

    ghost Value = { SourceState };

    ghost view = { λ s. record { left = drop s.taken s.bytes.items; calls = s.calls } };

    ghost invariant = { λ s. s.taken ≤ vec_len s.bytes };
}

impl MemSource {
    /// A source of these bytes. The calls whose numbers, from 1, are in `failing` fail.
    pub fn new(bytes: Vec<u8>, failing: Vec<u64>) -> MemSource
        ensures left { result.left ≡ bytes.items }
        ensures calls { result.calls ≡ no_calls failing.items }
    {
        MemSource {
            bytes,
            taken: 0,
            calls: Calls::new(failing),
        }
    }
}

impl Source for MemSource {
    ghost left = { λ s. Some s.left };

    ghost faults = { λ s. s.calls.faults };

    fn read(&mut self, buf: &mut [u8]) -> Result<usize, Failed>
        requires { 0 < length buf.old }

        // It fails exactly where it is to, and else gives as many bytes as fit.
        ensures failed_exactly { IsErr result ↔ IsTrue (is_due self.old.calls) }
        ensures gives { IfOk result (λ n. n ≡ min (length buf.new) (length self.old.left)) }
        ensures in_order { IfOk result (λ n. take n buf.new ≡ take n self.old.left) }
        ensures new { IfOk result (λ n. self.new ≡ record {
          left = drop n self.old.left;
          calls = passed self.old.calls;
        }) }
        ensures at_end { IfOk result (λ n. n ≡ 0 → self.old.left ≡ []) }
        ensures later { self.old.calls.faults ≤ self.new.calls.faults }
        ensures new_err { OnErr result
            (self.new ≡ record self.old { calls = failed self.old.calls }) }
    {
        if self.calls.count() {
            return Err(self.calls.fail());
        }
        let rest = &self.bytes[self.taken..];
        let n = buf.len().min(rest.len());
        buf[..n].copy_from_slice(&rest[..n]);
        self.taken += n;
        Ok(n)
    }
}

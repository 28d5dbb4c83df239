use std::alloc::{AllocError, Global};
use std::marker::Model;

/// A record as a journal appends it. Contracts see the payload.
#[derive(Debug, Drop)]
pub struct Framed {
    bytes: Vec<u8>,
}

impl Model for Framed {
    ghost use Rattle.std.specs.Prelude.{◌≡◌, List, ℕ, ◌-◌, ◌≤◌, length, take, drop};
    ghost use Rattle.wh_world.specs.Bytes.{framed};

    ghost Value = { List ℕ };

    ghost view = { λ f. take (length f.bytes.items - 9) (drop 8 f.bytes.items) };

    ghost invariant = { λ f. f.bytes.items
        ≡ framed (take (length f.bytes.items - 9) (drop 8 f.bytes.items)) };
}

impl Framed {
    ghost use Rattle.std.specs.Prelude.{◌≡◌, IfOk, length};
    ghost use Rattle.wh_world.specs.Bytes.{framed};

    /// The record of a payload.
    pub fn of(alloc: Global, payload: &[u8]) -> Result<Framed, AllocError>
        ensures { IfOk result (λ f. f ≡ payload.now) }
    {
        let mut bytes = Vec::with_capacity(alloc, payload.len() + 9)?;
        bytes.extend_from_slice(&(payload.len() as u64).to_be_bytes())?;
        bytes.extend_from_slice(payload)?;
        bytes.push(0)?;
        Ok(Framed { bytes })
    }

    /// The length, the payload and a closed gate.
    pub fn as_slice(&self) -> &[u8]
        ensures { result.now ≡ framed self.now }
    {
        &self.bytes
    }
}

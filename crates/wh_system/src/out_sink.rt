ghost use Rattle.std.specs.Prelude.{◌≡◌, ◌<◌, ◌≤◌, ℕ, None, IfOk, OnOk, OnErr, length};
ghost use Rattle.std.specs.Io.KnownBytes.{WriteAppends};
ghost use Rattle.wh_world.specs.Told.{Rose};

use crate::tries::{TRIES, write_outcome};
use std::io::Write;
use wh_world::{Failed, Sink};

/// Replies that go to a writer, as standard output, each piece at once. The bytes aren't told, but
/// what the writer takes is, as far as it tells it.
#[derive(Drop)]
pub struct OutSink<W: Write + Drop> {
    writer: W,
    faults: u64,
}

impl<W: Write + Drop> OutSink<W> {
    /// A sink that hasn't failed yet.
    pub fn new(writer: W) -> OutSink<W>
        ensures writer { result.writer ≡ writer }
        ensures no_faults { result.faults ≡ 0 }
    {
        OutSink { writer, faults: 0 }
    }
}

impl<W: Write + Drop> Sink for OutSink<W> {
    ghost held = { λ _. None };

    ghost faults = { λ s. s.faults };

    fn write(&mut self, piece: &[u8]) -> Result<usize, Failed>
        requires { 0 < length piece.now }

        // The writer took exactly the bytes that are counted, none where it failed.
        ensures writer { WriteAppends (W.contents self.old.writer) (W.contents self.new.writer)
            result piece.now }
        ensures count { IfOk result (λ n. (0 < n) × (n ≤ length piece.now)) }
        ensures later { self.old.faults ≤ self.new.faults }
        ensures no_fault { OnOk result (self.new.faults ≡ self.old.faults) }
        ensures failed { OnErr result (Rose self.old.faults self.new.faults) }
    {
        let outcome = write_some(&mut self.writer, piece);
        if outcome.is_err() {
            self.faults = self.faults.saturating_add(1);
        }
        outcome
    }
}

// Writes at least one byte. It gives up where the writer takes none, where it fails and no signal
// was the cause, or where a signal cut into each of the tries.
fn write_some<W: Write>(writer: &mut W, piece: &[u8]) -> Result<usize, Failed>
    ensures count { IfOk result (λ count. (0 < count) × (count ≤ length piece.now)) }
    ensures taken { WriteAppends (W.contents writer.old) (W.contents writer.new) result piece.now }
{
    for _ in 0..TRIES {
        if let Some(outcome) = write_outcome(writer.write(piece)) {
            return outcome;
        }
    }
    Err(Failed)
}

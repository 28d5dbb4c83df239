ghost use Rattle.std.specs.Prelude.{◌≡◌, ◌<◌, ◌≤◌, ℕ, None, IfOk, OnOk, OnErr, length};
ghost use Rattle.std.specs.Io.KnownBytes.{ReadConsumes};
ghost use Rattle.wh_world.specs.Told.{Rose};

use crate::tries::{TRIES, read_outcome};
use std::io::Read;
use wh_world::{Failed, Source};

/// A script that comes from a reader, as standard input. Its bytes aren't told, but what it takes
/// is, as far as the reader tells it.
#[derive(Drop)]
pub struct InSource<R: Read + Drop> {
    reader: R,
    faults: u64,
}

impl<R: Read + Drop> InSource<R> {
    /// A source that hasn't failed yet.
    pub fn new(reader: R) -> InSource<R>
        ensures reader { result.reader ≡ reader }
        ensures no_faults { result.faults ≡ 0 }
    {
        InSource { reader, faults: 0 }
    }
}

impl<R: Read + Drop> Source for InSource<R> {
    ghost left = { λ _. None };

    ghost faults = { λ s. s.faults };

    fn read(&mut self, buf: &mut [u8]) -> Result<usize, Failed>
        requires { 0 < length buf.old }

        // The reader lost exactly the bytes that are given, none where it failed.
        ensures reader { ReadConsumes (R.remaining self.old.reader) (R.remaining self.new.reader)
            result buf.new }
        ensures count { IfOk result (λ n. n ≤ length buf.new) }
        ensures later { self.old.faults ≤ self.new.faults }
        ensures no_fault { OnOk result (self.new.faults ≡ self.old.faults) }
        ensures failed { OnErr result (Rose self.old.faults self.new.faults) }
    {
        let outcome = read_some(&mut self.reader, buf);
        if outcome.is_err() {
            self.faults = self.faults.saturating_add(1);
        }
        outcome
    }
}

// Reads some bytes, or none at the end. It gives up where the reader fails and no signal was the
// cause, or where a signal cut into each of the tries.
fn read_some<R: Read>(reader: &mut R, buf: &mut [u8]) -> Result<usize, Failed>
    requires { 0 < length buf.old }
    ensures count { IfOk result (λ count. count ≤ length buf.new) }
    ensures taken { ReadConsumes (R.remaining reader.old) (R.remaining reader.new) result buf.new }
{
    for _ in 0..TRIES {
        if let Some(outcome) = read_outcome(reader.read(buf)) {
            return outcome;
        }
    }
    Err(Failed)
}

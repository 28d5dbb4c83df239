ghost use Rattle.wh_text.specs.Fault.{FaultFits, FaultFits-prop};

use crate::ahead::{Ahead, MAX_BYTES};
use crate::lines::read_line;
use crate::{Line, ScriptFault};
use std::alloc::Global;
use wh_value::Bytes;
use wh_world::Source;

/// A script, of which some bytes are taken ahead. From its first fault on each turn has that fault.
#[derive(Debug, Drop)]
pub struct Script {
    alloc: Global,
    ahead: Ahead,
    // where the bytes of a line are gathered; it keeps its memory
    text: Bytes,
    fault: Option<ScriptFault>,
    ghost fits: { FaultFits fault ahead.taken } by { FaultFits-prop fault ahead.taken },
}

impl Script {
    ghost use Rattle.std.specs.Prelude.{◌≡◌, ◌≤◌, ◌^◌, [], Some, None, Err, IfOk, OnOk, IfSome};
    ghost use Rattle.wh_text.specs.Turn.{ahead_and, IsTurn, IsReadable};
    ghost use Rattle.wh_text.specs.Script.{ahead_of, taken_of, fault_of, Uses, Counts, HasCauses};

    /// The most bytes of a script.
    pub const MAX_BYTES: u64 = MAX_BYTES;

    /// Nothing is taken yet. Takes no memory.
    pub fn new(alloc: Global) -> Script
        ensures ahead { ahead_of result ≡ [] }
        ensures taken { taken_of result ≡ 0 }
        ensures fault { fault_of result ≡ None }
    {
        Script::after(alloc, 0)
    }

    /// What comes after the first `taken` bytes of a script. Takes no memory.
    pub fn after(alloc: Global, taken: u64) -> Script
        requires most { taken ≤ 2 ^ 30 }
        ensures ahead { ahead_of result ≡ [] }
        ensures taken { taken_of result ≡ taken }
        ensures fault { fault_of result ≡ None }
    {
        Script {
            alloc,
            ahead: Ahead::after(alloc, taken),
            text: Bytes::new(alloc),
            fault: None,
        }
    }

    /// The next line, of a longer command its first 65,537 bytes. None at the end of the script.
    pub fn next<S: Source>(&mut self, source: &mut S) -> Result<Option<Line>, ScriptFault>
        // The first line of what was still to be read, and the rest stays.
        ensures turn { IfOk result (IsTurn (ahead_and (ahead_of self.old) (S.left source.old))
            (ahead_and (ahead_of self.new) (S.left source.new))) }
        ensures reading { IfOk result (λ found. IfSome found IsReadable) }
        ensures progress { IfOk result (λ found. IfSome found (λ _. Uses self.old self.new)) }
        ensures goes { OnOk result (fault_of self.new ≡ None) }
        ensures counts { Counts self.old self.new (S.left source.old) (S.left source.new) }
        ensures later { S.faults source.old ≤ S.faults source.new }
        ensures no_fault { OnOk result (S.faults source.new ≡ S.faults source.old) }

        // A fault stays.
        ensures causes { HasCauses self.old self.new result
            (S.faults source.old) (S.faults source.new) }
        ensures again { (fault : ScriptFault) → fault_of self.old ≡ Some fault →
            (result ≡ Err fault) × (self.new ≡ self.old) × (source.new ≡ source.old) }
    {
        if let Some(fault) = self.fault {
            return Err(fault);
        }
        match read_line(self.alloc, &mut self.ahead, &mut self.text, source) {
            Ok(found) => Ok(found),
            Err(fault) => {
                self.fault = Some(fault);
                Err(fault)
            }
        }
    }
}

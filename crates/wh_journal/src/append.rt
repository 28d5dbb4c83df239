use crate::{AppendFault, Journal};
use wh_world::{Disk, Failed, Framed};

impl Journal {
    ghost use Rattle.std.specs.Prelude.{◌≡◌, ◌+◌, ◌-◌, ◌≤◌, List, ℕ, OnOk, is_some};
    ghost use Rattle.wh_world.specs.Told.{Told};
    ghost use Rattle.wh_journal.specs.Torn.{SameFront};
    ghost use Rattle.wh_journal.specs.Journal.{HasRoom, end_of, need_of};
    ghost use Rattle.wh_journal.specs.Device.{Writes, IsDurable};
    ghost use Rattle.wh_journal.specs.Appending.{IsJournalOf, AppendsOver, Adds, Refuses};

    /// Adds one record. After DiskFault the file has to be opened again.
    pub fn append<D: Disk>(&mut self, disk: &mut D, frame: &Framed) -> Result<(), AppendFault>
        requires room { HasRoom self.old }
        requires reach { end_of self.old ≤ D.size disk.old }

        // Over a told file of the journal's payloads, and for a crash at any moment of the call.
        ensures filed { (payloads : List (List ℕ)) (file : List ℕ) →
            IsJournalOf payloads file (D.bytes disk.old) self.old →
            AppendsOver D.Disk disk.old disk.new self.new payloads file frame.now result }
        // Over any disk.
        ensures told { OnOk result (is_some (D.bytes disk.new) ≡ is_some (D.bytes disk.old)) }
        // All bytes in front of the gate are as they were, after a fault too.
        ensures front { Told (SameFront (end_of self.old - 1))
            (D.bytes disk.old) (D.bytes disk.new) }
        ensures durable { OnOk result (IsDurable D.Disk disk.new) }
        ensures writes { Writes D.Disk disk.old disk.new
            (end_of self.old + need_of frame.now) result }
        ensures reach { end_of self.new ≤ D.size disk.new }
        ensures listed { Adds self.old self.new frame.now result }
        ensures refused { Refuses D.Disk disk.old disk.new self.old self.new frame.now result }
    {
        if let Some(faults) = self.failed {
            return Err(AppendFault::NeedsReopen { faults });
        }
        let framed = frame.as_slice();
        let need = framed.len() as u64;
        if self.limit.saturating_sub(self.end) < need {
            return Err(AppendFault::FileFull {
                len: self.end,
                need,
            });
        }
        match write_record(disk, self.end, framed) {
            Ok(()) => {
                self.list(need - 9).unwrap();
                Ok(())
            }
            Err(Failed) => {
                self.failed = Some(disk.fault_count());
                Err(AppendFault::DiskFault)
            }
        }
    }
}

ghost use Rattle.std.specs.Prelude.{◌≡◌, ◌+◌, ◌-◌, ◌<◌, ◌≤◌, ◌^◌, [], ◌∷◌, max, List, ℕ, Some};
ghost use Rattle.std.specs.Prelude.{length, option_map, OnOk, OnErr};
ghost use Rattle.wh_world.specs.Told.{Told, Rose};
ghost use Rattle.wh_world.specs.Crash.{Only};
ghost use Rattle.wh_world.specs.Bytes.{written, Torn};
ghost use Rattle.wh_journal.specs.Torn.{TornRecord};
ghost use Rattle.wh_journal.specs.Device.{Writes, IsDurable};
ghost use Rattle.wh_journal.specs.Crash.{LeavesOnly};
ghost use Rattle.wh_journal.specs.Places.{with_record};

// Writes a record behind the gate that ends there, and opens the gate.
fn write_record<D: Disk>(disk: &mut D, end: u64, framed: &[u8]) -> Result<(), Failed>
    requires gate { 0 < end }
    requires reach { end ≤ D.size disk.old }
    requires fits { end + length framed.now ≤ 2 ^ 40 }
    ensures written { OnOk result
        (D.bytes disk.new ≡ option_map (λ old. with_record old end framed.now) (D.bytes disk.old)) }
    ensures torn { OnErr result
        (Told (TornRecord end framed.now) (D.bytes disk.old) (D.bytes disk.new)) }
    ensures any_moment { (file : List ℕ) → D.bytes disk.old ≡ Some file
        → Only file (D.may_leave disk.old)
        → LeavesOnly D.moment D.left_since disk.old disk.new (TornRecord end framed.now file) }
    ensures durable { OnOk result (IsDurable D.Disk disk.new) }
    ensures writes { Writes D.Disk disk.old disk.new (end + length framed.now) result }
    ensures failed { OnErr result (Rose (D.faults disk.old) (D.faults disk.new)) }
{
    // The payload has to be on the disk first: an open gate before it would count torn bytes.
    stage(disk, end, framed)?;
    open_gate(disk, end - 1)
}

// Brings a record onto the disk behind the closed gate that ends there.
fn stage<D: Disk>(disk: &mut D, end: u64, framed: &[u8]) -> Result<(), Failed>
    requires reach { end ≤ D.size disk.old }
    requires fits { end + length framed.now ≤ 2 ^ 40 }
    ensures written { OnOk result
        (D.bytes disk.new ≡ option_map (λ old. written old end framed.now) (D.bytes disk.old)) }
    ensures torn { OnErr result
        (Told (Torn end (length framed.now)) (D.bytes disk.old) (D.bytes disk.new)) }
    ensures any_moment { (file : List ℕ) → Only file (D.may_leave disk.old) →
        LeavesOnly D.moment D.left_since disk.old disk.new (Torn end (length framed.now) file) }
    ensures durable { OnOk result (IsDurable D.Disk disk.new) }
    ensures writes { Writes D.Disk disk.old disk.new (end + length framed.now) result }
    ensures failed { OnErr result (Rose (D.faults disk.old) (D.faults disk.new)) }
{
    disk.write_at(end, framed)?;
    disk.sync()
}

// Opens the gate at a position, on the disk too.
fn open_gate<D: Disk>(disk: &mut D, gate: u64) -> Result<(), Failed>
    requires reach { gate < D.size disk.old }
    requires fits { gate < 2 ^ 40 }
    ensures written { OnOk result
        (D.bytes disk.new ≡ option_map (λ old. written old gate (1 ∷ [])) (D.bytes disk.old)) }
    ensures torn { OnErr result (Told (Torn gate 1) (D.bytes disk.old) (D.bytes disk.new)) }
    ensures any_moment { (file : List ℕ) → Only file (D.may_leave disk.old) →
        LeavesOnly D.moment D.left_since disk.old disk.new (Torn gate 1 file) }
    ensures durable { OnOk result (IsDurable D.Disk disk.new) }
    ensures size { D.size disk.new ≡ D.size disk.old }
    ensures writes { Writes D.Disk disk.old disk.new (gate + 1) result }
    ensures failed { OnErr result (Rose (D.faults disk.old) (D.faults disk.new)) }
{
    disk.write_at(gate, &[1])?;
    disk.sync()
}

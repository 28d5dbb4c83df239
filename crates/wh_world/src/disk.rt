ghost use Rattle.std.specs.Prelude.{◌≡◌, ◌+◌, ◌≤◌, ◌^◌, max, List, ℕ, Option, Some, length};
ghost use Rattle.std.specs.Prelude.{option_map, IfOk, OnOk, OnErr};
ghost use Rattle.wh_world.specs.Told.{Rose};
ghost use Rattle.wh_world.specs.Bytes.{Overwrites, part_at, Torn, Tears, GrowsWithin};
ghost use Rattle.wh_world.specs.Crash.{Follows, NoOthers, Only, Elapses};

use crate::Failed;

/// A file on a disk, with what a crash may leave of it. Between two syncs each written range may
/// hold any bytes.
pub trait Disk {
    /// The bytes that a read gives, where they are told.
    ghost bytes: { Self → Option (List ℕ) };

    /// What a crash now may leave. Where `bytes` isn't told this says nothing.
    ghost may_leave: { Self → List ℕ → Type 0 };

    /// The moment, as a number that doesn't fall.
    ghost moment: { Self → ℕ };

    /// What a crash at some moment from that one on may have left, during a call or between two.
    ghost left_since: { Self → ℕ → List ℕ → Type 0 };

    /// How often it has failed.
    ghost faults: { Self → ℕ };

    /// How often it was read: one more at each call of `read`, up to the end of the count's type.
    ghost reads: { Self → ℕ };

    /// How many bytes the file has.
    ghost size: { Self → ℕ };

    /// The number of bytes.
    fn len(&mut self) -> Result<u64, Failed>
        ensures size { IfOk result (λ n. n ≡ size self.old) }
        ensures same { (bytes self.new ≡ bytes self.old) × (size self.new ≡ size self.old)
            × (reads self.new ≡ reads self.old) }
        ensures crash { NoOthers (may_leave self.old) (may_leave self.new) }
        ensures time { Elapses (moment self.old) (moment self.new)
            (left_since self.old) (left_since self.new) (may_leave self.new) }
        ensures later { faults self.old ≤ faults self.new }
        ensures no_fault { OnOk result (faults self.new ≡ faults self.old) }
        ensures failed { OnErr result (Rose (faults self.old) (faults self.new)) };

    /// The count of faults.
    fn fault_count(&self) -> u64
        ensures { result ≡ faults self.now };

    /// Fills `buf` from a place on.
    fn read(&mut self, at: u64, buf: &mut [u8]) -> Result<(), Failed>
        requires { at + length buf.old ≤ size self.old }
        ensures content { OnOk result
            ((b : List ℕ) → bytes self.old ≡ Some b → buf.new ≡ part_at at (length buf.new) b) }
        ensures same { (bytes self.new ≡ bytes self.old) × (size self.new ≡ size self.old) }
        ensures reads { (reads self.old ≤ reads self.new) × (reads self.new ≤ reads self.old + 1) }
        ensures counted { Rose (reads self.old) (reads self.new) }
        ensures crash { NoOthers (may_leave self.old) (may_leave self.new) }
        ensures time { Elapses (moment self.old) (moment self.new)
            (left_since self.old) (left_since self.new) (may_leave self.new) }
        ensures later { faults self.old ≤ faults self.new }
        ensures no_fault { OnOk result (faults self.new ≡ faults self.old) }
        ensures failed { OnErr result (Rose (faults self.old) (faults self.new)) };

    /// Writes over what is there, and past the end. Until a sync a crash may leave any bytes in the
    /// range.
    fn write_at(&mut self, at: u64, piece: &[u8]) -> Result<(), Failed>
        requires place { at ≤ size self.old }
        requires end { at + length piece.now ≤ 2 ^ 40 }
        ensures written { OnOk result (Overwrites at piece.now (bytes self.old) (bytes self.new)) }
        ensures torn { OnErr result (Tears at piece.now (bytes self.old) (bytes self.new)) }
        ensures size { OnOk result (size self.new ≡ max (size self.old) (at + length piece.now)) }
        ensures size_err { OnErr result
            (GrowsWithin (at + length piece.now) (size self.old) (size self.new)) }
        ensures reads { reads self.new ≡ reads self.old }
        ensures crash { Follows (Torn at (length piece.now))
            (may_leave self.old) (may_leave self.new) }
        ensures time { Elapses (moment self.old) (moment self.new)
            (left_since self.old) (left_since self.new) (may_leave self.new) }
        ensures later { faults self.old ≤ faults self.new }
        ensures no_fault { OnOk result (faults self.new ≡ faults self.old) }
        ensures failed { OnErr result (Rose (faults self.old) (faults self.new)) };

    /// Brings all that was written onto the disk: from Ok on a crash leaves what a read gives.
    fn sync(&mut self) -> Result<(), Failed>
        ensures durable { OnOk result ((b : List ℕ) → bytes self.old ≡ Some b
            → Only b (may_leave self.new)) }
        ensures same { (bytes self.new ≡ bytes self.old) × (size self.new ≡ size self.old)
            × (reads self.new ≡ reads self.old) }
        ensures crash { NoOthers (may_leave self.old) (may_leave self.new) }
        ensures time { Elapses (moment self.old) (moment self.new)
            (left_since self.old) (left_since self.new) (may_leave self.new) }
        ensures later { faults self.old ≤ faults self.new }
        ensures no_fault { OnOk result (faults self.new ≡ faults self.old) }
        ensures failed { OnErr result (Rose (faults self.old) (faults self.new)) };

    /// The told bytes are as many as the file has.
    ghost spans: { (disk : Self) (b : List ℕ) → bytes disk ≡ Some b → length b ≡ size disk };

    /// What a read gives is one of the images.
    ghost shown: { (disk : Self) (b : List ℕ) → bytes disk ≡ Some b → may_leave disk b };

    /// This moment is one of those since an earlier one.
    ghost counts_now: { (disk : Self) (t : ℕ) (image : List ℕ) → t ≤ moment disk
        → may_leave disk image → left_since disk t image };

    /// Since this moment there is no other.
    ghost only_now: { (disk : Self) (image : List ℕ) → left_since disk (moment disk) image
        → may_leave disk image };
}

ghost use Rattle.std.specs.Prelude.{◌≡◌, ◌<◌, ◌≤◌, ◌++◌, List, ℕ, Option, length, take, option_map};
ghost use Rattle.std.specs.Prelude.{IfOk, OnOk, OnErr};
ghost use Rattle.wh_world.specs.Told.{Rose};

use crate::Failed;

/// Where replies go.
pub trait Sink {
    /// The bytes that it has taken, where they are told.
    ghost held: { Self → Option (List ℕ) };

    /// How often it has failed.
    ghost faults: { Self → ℕ };

    /// Takes some bytes of the piece from its front, at least one, and gives their number.
    fn write(&mut self, piece: &[u8]) -> Result<usize, Failed>
        requires { 0 < length piece.now }
        ensures count { IfOk result (λ n. (0 < n) × (n ≤ length piece.now)) }
        ensures taken { IfOk result
            (λ n. held self.new ≡ option_map (λ held. held ++ take n piece.now) (held self.old)) }
        ensures kept { OnErr result (held self.new ≡ held self.old) }
        ensures later { faults self.old ≤ faults self.new }
        ensures no_fault { OnOk result (faults self.new ≡ faults self.old) }
        ensures failed { OnErr result (Rose (faults self.old) (faults self.new)) };
}

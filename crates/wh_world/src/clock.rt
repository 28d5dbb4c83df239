ghost use Rattle.std.specs.Prelude.{◌≡◌, ◌<◌, ◌^◌, List, ℕ, Option, Some, length, option_map};
ghost use Rattle.std.specs.Prelude.{slice_index};
ghost use Rattle.wh_world.specs.Readings.{readings_after};

/// A clock in milliseconds.
pub trait Clock {
    /// The readings that come, where they are told.
    ghost readings: { Self → Option (List ℕ) };

    /// The first reading, which goes unless it is the last.
    fn now(&mut self) -> u64
        ensures below { result < 2 ^ 62 }
        ensures reading { (rs : List ℕ) → readings self.old ≡ Some rs → result ≡ slice_index rs 0 }
        ensures others { readings self.new ≡ option_map readings_after (readings self.old) };

    /// There is always one.
    ghost some: { (clock : Self) (rs : List ℕ) → readings clock ≡ Some rs → 0 < length rs };
}

ghost use Rattle.std.specs.Prelude.{◌≡◌, ◌<◌, ◌^◌, List, ℕ, Some, length, drop, slice_index};
ghost use Rattle.std.proofs.Common.{arith, length-drop};

use crate::Clock;

/// A clock that gives set readings, and its last one again and again.
#[derive(Debug, Drop)]
pub struct SetClock {
    readings: Vec<u64>,
    place: usize,
    ghost some: { place < length readings.items },
    ghost below: { (k : ℕ) → k < length readings.items → slice_index readings.items k < 2 ^ 62 },
}

impl SetClock {
    ghost use Rattle.wh_world.specs.SetClock.{readings_left};

    /// A clock with these readings in milliseconds, in order.
    pub fn new(readings: Vec<u64>) -> SetClock
        requires some { 0 < length readings.items }
        requires below { (k : ℕ) → k < length readings.items
            → slice_index readings.items k < 2 ^ 62 }
        ensures { readings_left result ≡ readings.items }
    {
        SetClock { readings, place: 0 }
    }
}

impl Clock for SetClock {
    ghost readings = { λ c. Some (drop c.place c.readings.items) };

    ghost some = { Prim.grind (arith, length-drop {A = ℕ}) };

    fn now(&mut self) -> u64 {
        let reading = self.readings[self.place];
        if self.place + 1 < self.readings.len() {
            self.place += 1;
        }
        reading
    }
}

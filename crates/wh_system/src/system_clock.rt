ghost use Rattle.std.specs.Prelude.{◌≡◌, ◌<◌, ◌^◌, None, IfSome};
ghost use Rattle.wh_system.specs.Untold.{untold};

use std::time;
use std::time::SystemTime;
use wh_world::Clock;

// No reading is as great.
const LIMIT: u128 = 1 << 62;

/// The system's clock, in milliseconds since 1970. Where it can't be read or is out of range it
/// gives its last reading again, 0 at first. Its readings aren't told.
#[derive(Drop)]
pub struct SystemClock<'a, T: time::Clock> {
    system: &'a T,
    last: u64,
    ghost below: { last < 2 ^ 62 },
}

impl<'a, T: time::Clock> SystemClock<'a, T> {
    /// A clock that hasn't been read, whose last reading is 0.
    pub fn new(system: &'a T) -> SystemClock<'a, T>
        ensures { result.last ≡ 0 }
    {
        SystemClock { system, last: 0 }
    }
}

impl<'a, T: time::Clock> Clock for SystemClock<'a, T> {
    ghost readings = { λ _. None };

    ghost some = { λ clock rs told. untold rs told };

    fn now(&mut self) -> u64 {
        if let Some(reading) = read(self.system) {
            self.last = reading;
        }
        self.last
    }
}

// The milliseconds since 1970, where they are in range.
fn read<T: time::Clock>(system: &T) -> Option<u64>
    ensures { IfSome result (λ reading. reading < 2 ^ 62) }
{
    let since = SystemTime::now(system)
        .ok()?
        .duration_since(SystemTime::UNIX_EPOCH)
        .ok()?;
    let reading = since.as_millis();
    if reading < LIMIT {
        Some(reading as u64)
    } else {
        None
    }
}

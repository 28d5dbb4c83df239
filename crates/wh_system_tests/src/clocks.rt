use std::cell::Cell;
use std::time::Duration;
use std::{io, time};
use wh_system::SystemClock;
use wh_world::Clock;

// A system whose clock shows these seconds, or can't be read.
#[derive(Drop)]
struct System(Cell<Option<u64>>);

impl time::Clock for System {
    fn monotonic(&self) -> io::Result<Duration> {
        Err(io::Error::from(io::ErrorKind::Unsupported))
    }

    fn since_1970(&self) -> io::Result<Duration> {
        match self.0.get() {
            Some(seconds) => Ok(Duration::from_secs(seconds)),
            None => Err(io::Error::from(io::ErrorKind::Unsupported)),
        }
    }
}

#[test]
fn the_last_reading_stands_in(rt: HostRuntime) {
    let system = System(Cell::new(None));
    let mut clock = SystemClock::new(&system);
    let cases = [
        ("not read at first", None, 0),
        ("two seconds", Some(2), 2000),
        ("not read", None, 2000),
        ("out of range", Some(1 << 60), 2000),
        ("earlier", Some(1), 1000),
    ];
    for (name, seconds, want) in cases {
        system.0.set(seconds);
        assert_eq!(rt; clock.now(), want, "{name}");
    }
}

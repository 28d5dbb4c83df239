ghost use Rattle.std.specs.Prelude.{◌≡◌};
ghost use Rattle.wh_machine.specs.Step.{reading_of};
ghost use Rattle.wh_decide.specs.Event.{event_of};

use wh_value::Bytes;

/// What is to be carried out next, at a reading of the clock.
#[derive(Debug, Drop)]
pub enum Event {
    /// A command of a session.
    Command {
        reading: u64,
        session: u64,
        text: Bytes,
    },
    Tick {
        reading: u64,
    },
}

impl Event {
    /// The clock's reading.
    pub fn reading(&self) -> u64
        ensures { result ≡ reading_of (event_of self.now) }
    {
        match self {
            Event::Command { reading, .. } | Event::Tick { reading } => *reading,
        }
    }
}

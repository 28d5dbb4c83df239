ghost use Rattle.wh_decide.specs.Event.{event_of};
ghost use Rattle.wh_shell.specs.Ticking.{Takes};
ghost use Rattle.wh_shell.specs.Timing.{timing_of, at_reading, Times};
ghost use Rattle.std.specs.Prelude.{◌≡◌};

use wh_engine::Event;
use wh_world::Clock;

/// The event with the next reading of the system's clock in place of its own, where that is asked
/// for.
pub(crate) fn timed<C: Clock>(event: Event, system: bool, clock: &mut C) -> Event
    ensures event { Times (timing_of system (C.readings clock.old))
        (timing_of system (C.readings clock.new)) (event_of event) (event_of result) }
    ensures clock { Takes C.Clock system 1 clock.old clock.new }
{
    if !system {
        return event;
    }
    with_reading(event, clock.now())
}

fn with_reading(event: Event, reading: u64) -> Event
    ensures { event_of result ≡ at_reading reading (event_of event) }
{
    match event {
        Event::Command { session, text, .. } => Event::Command {
            reading,
            session,
            text,
        },
        Event::Tick { .. } => Event::Tick { reading },
    }
}

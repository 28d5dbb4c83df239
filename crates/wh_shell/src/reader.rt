use std::alloc::Global;
use wh_engine::Event;
use wh_text::{Line, Script, ScriptFault};
use wh_world::Source;

/// Reads the events of a script, one at a time.
#[derive(Debug, Drop)]
pub(crate) struct Reader {
    pub(crate) script: Script,
    // whose commands come next
    pub(crate) session: u64,
    // the number of the last tick that has one
    pub(crate) reading: u64,
}

impl Reader {
    ghost use Rattle.std.specs.Prelude.{◌≡◌, ◌<◌, ◌≤◌, ◌^◌, ℕ, List, Option, Some, None};
    ghost use Rattle.std.specs.Prelude.{option_map, IfSome};
    ghost use Rattle.std.specs.Prelude.{IfOk, OnOk, IfErr, IsErrOf};
    ghost use Rattle.wh_world.specs.Told.{Rose};
    ghost use Rattle.wh_text.specs.View.{line_view};
    ghost use Rattle.wh_text.specs.Turn.{ahead_and};
    ghost use Rattle.wh_text.specs.Script.{ahead_of, taken_of, consumed_of, fault_of, Counts};
    ghost use Rattle.wh_shell.specs.Events.{events};
    ghost use Rattle.wh_shell.specs.Reading.{unread, Gives, Turns, FailsBy};

    /// At the start of a script. Takes no memory.
    pub(crate) fn new(alloc: Global) -> Reader
        ensures unread { (left : Option (List ℕ)) → unread result left ≡ option_map events left }
        ensures taken { taken_of result.script ≡ 0 }
        ensures fault { fault_of result.script ≡ None }
    {
        Reader {
            script: Script::new(alloc),
            session: 1,
            reading: 0,
        }
    }

    /// The next event; None at the end of the script. Nothing more is to be read after an Err.
    pub(crate) fn next<S: Source>(&mut self, source: &mut S) -> Result<Option<Event>, ScriptFault>
        requires { fault_of self.old.script ≡ None }
        ensures turn { IfOk result (Gives (unread self.old (S.left source.old))
            (unread self.new (S.left source.new)) (S.left source.new)) }
        ensures progress { IfOk result (λ found. IfSome found (λ event.
            consumed_of self.old.script < consumed_of self.new.script)) }
        ensures goes { OnOk result (fault_of self.new.script ≡ None) }
        ensures causes { IfErr result (FailsBy
            (Rose (S.faults source.old) (S.faults source.new)) self.new.script) }
        ensures counts { Counts self.old.script self.new.script
            (S.left source.old) (S.left source.new) }
        ensures long { 2 ^ 30 < taken_of self.new.script →
            IsErrOf result (ScriptFault.TooLong (taken_of self.new.script)) }
        ensures later { S.faults source.old ≤ S.faults source.new }
    {
        'lines: loop {
            let Some(line) = self.script.next(source)? else {
                return Ok(None);
            };
            if let Some(event) = self.take_line(line) {
                return Ok(Some(event));
            }
        }
    }

    // What a line asks for: a session's line sets the session, and asks for nothing.
    fn take_line(&mut self, line: Line) -> Option<Event>
        ensures turned { Turns self.old.session self.old.reading (line_view line) result
            self.new.session self.new.reading }
        ensures script { self.new.script ≡ self.old.script }
    {
        match line {
            Line::Command(text) => Some(Event::Command {
                reading: self.reading,
                session: self.session,
                text,
            }),
            Line::Session(session) => {
                self.session = session;
                None
            }
            Line::Tick(reading) => Some(self.tick(reading)),
        }
    }

    // A tick: its number is the reading of the events from there on.
    fn tick(&mut self, number: Option<u64>) -> Event
        ensures turned { Turns self.old.session self.old.reading
            (line_view (Line.Tick number)) (Some result) self.new.session self.new.reading }
        ensures script { self.new.script ≡ self.old.script }
    {
        if let Some(reading) = number {
            self.reading = reading;
        }
        Event::Tick {
            reading: self.reading,
        }
    }
}

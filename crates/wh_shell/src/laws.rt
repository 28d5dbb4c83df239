ghost use Rattle.wh_shell.specs.Laws.{FixesEvents};
ghost use Rattle.wh_shell.specs.Workers.{PromisesAlike, WritesAlike};

use wh_world::{Disk, Sink, Source};

/// Each script has events, and these alone: what is said of any events of it is said of one list.
pub fn script_fixes_events()
    ensures { FixesEvents }
{}

/// Words that ask for the same task by other numbers of workers promise the same; and of two runs
/// over what is told alike, whose scripts were read to their ends, each writes what the other does,
/// and their files stand for the same.
pub fn workers_change_no_answer<S: Source, K: Sink, D: Disk>()
    ensures promises { PromisesAlike D.Disk S.Source K.Sink }
    ensures writes { WritesAlike D.Disk S.Source K.Sink }
{}

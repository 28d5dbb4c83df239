//! A warehouse in a file: `bokzarn PATH run` carries out the script on standard input, and `bokzarn
//! PATH bench N SEED` a generated one. The replies are written to standard output.
#![tactic(auto)]

ghost use Rattle.std.specs.Prelude.{◌≡◌, String, IfOk, IfErr, IfSome, OnOk, IsSome, ◌⊎◌};
ghost use Rattle.std.specs.Fn.{FnOnceReturnsAt};
ghost use Rattle.wh_shell.specs.Asked.{asked_by, CarriesOut};
ghost use Rattle.wh_shell.specs.World.{world_of};
ghost use Rattle.bokzarn.specs.Ending.{status_of, EndsUnread, EndsBy, EndsAs, words_in};

mod ending;

use crate::ending::{Ending, report};
use std::alloc::{AllocError, Global};
use std::env::Env;
use std::fs::{File, Files};
use std::io::{ErrorKind, Input};
use std::process::ExitCode;
use std::thread::Threads;
use std::{env, io, time};
use wh_shell::{Fault, Status, run};
use wh_system::{FileDisk, InSource, OpenError, OutSink, SystemClock};
use wh_world::{Clock, Disk, Sink, Source};

fn main(rt: HostRuntime) -> ExitCode {
    report(&mut rt.stderr(), &ending_of(&rt)).0
}

// How the program ends.
fn ending_of<R>(rt: &R) -> Ending
where
    R: Env + Files<File = File> + Input + Print + time::Clock + AllocGlobal + Threads + Sync,
{
    ending_by(rt, env::args(rt), |path| FileDisk::open(rt, path))
}

// How the program ends by its arguments, the first of which is its own name.
fn ending_by<R, D: Disk + Drop, F: FnOnce(&str) -> Result<D, OpenError>>(
    rt: &R,
    arguments: io::Result<env::Args>,
    opener: F,
) -> Ending
where
    R: Input + Print + time::Clock + AllocGlobal + Threads + Sync,
    requires { F.IsAlwaysCallable opener }
    ensures unread { IfErr arguments (λ error. EndsUnread error result) }
    ensures ending { IfOk arguments (λ all. result ≡ Ending.With (Status.Stopped Fault.OutOfMemory)
        ⊎ EndsAs (FnOnceReturnsAt F.FnOnce opener) (words_in all) result) }
{
    match arguments {
        Ok(arguments) => match words_of(rt.alloc(), arguments) {
            Ok(words) => carry_out(rt, &words, opener),
            Err(_) => Ending::With(Status::Stopped(Fault::OutOfMemory)),
        },
        Err(error) => unread(error),
    }
}

// The words can't be read: there is no memory for them, or one is no text.
fn unread(error: io::Error) -> Ending
    ensures { EndsUnread error result }
{
    if error.kind() == ErrorKind::OutOfMemory {
        Ending::With(Status::Stopped(Fault::OutOfMemory))
    } else {
        Ending::With(Status::Usage)
    }
}

// The words behind the program's name.
fn words_of(alloc: Global, mut arguments: env::Args) -> Result<Vec<String>, AllocError>
    ensures { IfOk result (λ words. words.items ≡ words_in arguments) }
{
    let _name = arguments.next();
    let mut words = Vec::new(alloc);
    for word in arguments {
        words.push(word)?;
    }
    Ok(words)
}

// The file of the first word is opened before the words behind it are read.
fn carry_out<R, D: Disk + Drop, F: FnOnce(&str) -> Result<D, OpenError>>(
    rt: &R,
    words: &[String],
    opener: F,
) -> Ending
where
    R: Input + Print + time::Clock + AllocGlobal + Threads + Sync,
    requires { F.IsAlwaysCallable opener }
    ensures { EndsAs (FnOnceReturnsAt F.FnOnce opener) words.now result }
{
    let Some((path, words)) = words.split_first() else {
        return Ending::With(Status::Usage);
    };
    let opening = opener(path.as_str());
    let mut script = InSource::new(rt.reader());
    let mut out = OutSink::new(io::writer(rt));
    let mut clock = SystemClock::new(rt);
    run_over(
        rt,
        rt.alloc(),
        words,
        opening,
        &mut script,
        &mut out,
        &mut clock,
    )
    .0
}

// Runs over the disk that an opening gave, and hands it back.
fn run_over<S: Source, K: Sink, D: Disk, C: Clock>(
    rt: &(impl Threads + Sync),
    alloc: Global,
    words: &[String],
    opening: Result<D, OpenError>,
    script: &mut S,
    out: &mut K,
    clock: &mut C,
) -> (Ending, Option<D>)
    ensures ending { EndsBy words.now opening result.0 }
    ensures task { IfOk opening (λ before. IfSome result.1 (λ after. IfSome (asked_by words.now)
        (λ task. CarriesOut D.Disk S.Source K.Sink (C.readings clock.old) task
        (world_of before script.old out.old) (world_of after script.new out.new)
        (status_of result.0)))) }
    ensures handed_back { OnOk opening (IsSome result.1) }
{
    let disk = match opening {
        Ok(disk) => disk,
        Err(OpenError::Locked) => return (Ending::Locked, None),
        Err(OpenError::System(_)) => return (Ending::Unopened, None),
    };
    let (status, disk) = run(rt, alloc, words, script, out, disk, clock);
    (Ending::With(status), Some(disk))
}

ghost use Rattle.std.specs.Prelude.{◌≡◌, [], map, true, false, Err, IfOk};
ghost use Rattle.std.specs.String.{string_bytes};
ghost use Rattle.clap.specs.Words.{app_of, rule_of, with_rule, found_of, kind_of};
ghost use Rattle.clap.specs.Words.{fault_of, is_simple_and_free, matches_of, rows_of};
ghost use Rattle.wh_words.specs.Words.{run_app, bench_app, workers_rule, wanted_rule};
ghost use Rattle.wh_words.specs.declared.task.Misread.TheVariants.{Usage};

use crate::Misread;
use clap::error::ErrorKind;
use clap::{Arg, ArgAction, ArgMatches, Command, Error};
use std::alloc::{AllocError, Global};

/// What `run` takes.
pub(crate) fn run_command<'a>(alloc: Global) -> Result<Command<'a>, AllocError>
    ensures { IfOk result (λ command. app_of command ≡ run_app) }
{
    let command = Command::new(alloc, "run").disable_help_flag(true);
    let clock = Arg::new(alloc, "clock")
        .long("clock")
        .action(ArgAction::Set);
    with(with(command, workers(alloc))?, clock)
}

/// What `bench` takes.
pub(crate) fn bench_command<'a>(alloc: Global) -> Result<Command<'a>, AllocError>
    ensures { IfOk result (λ command. app_of command ≡ bench_app) }
{
    let command = Command::new(alloc, "bench").disable_help_flag(true);
    let command = with(command, workers(alloc))?;
    let command = with(command, wanted(alloc, "N"))?;
    with(command, wanted(alloc, "SEED"))
}

// The option `--workers`.
fn workers<'a>(alloc: Global) -> Arg<'a>
    ensures rule { rule_of result ≡ workers_rule }
    ensures local { result.global ≡ false }
{
    Arg::new(alloc, "workers")
        .long("workers")
        .action(ArgAction::Set)
        .default_value("1")
}

// A word that is to stand behind the command.
fn wanted<'a>(alloc: Global, name: &'a str) -> Arg<'a>
    ensures rule { rule_of result ≡ wanted_rule name.entry.now }
    ensures local { result.global ≡ false }
{
    Arg::new(alloc, name).required(true).action(ArgAction::Set)
}

// The command with one argument more.
fn with<'a>(command: Command<'a>, arg: Arg<'a>) -> Result<Command<'a>, AllocError>
    requires { arg.global ≡ false }
    ensures { IfOk result
        (λ new. app_of new ≡ with_rule (app_of command.entry) (rule_of arg.entry)) }
{
    command.arg(arg)
}

/// The matches of a simple command.
pub(crate) fn matched<'a>(
    command: Command<'a>,
    words: &'a [String],
) -> Result<ArgMatches<'a>, Misread>
    requires { is_simple_and_free (app_of command) ≡ true }
    ensures ok { IfOk result (λ matches.
        (fault_of (app_of command.entry) (map string_bytes words.entry.now) ≡ [])
        × (rows_of (found_of matches)
        ≡ matches_of (app_of command.entry) (map string_bytes words.entry.now))) }
    ensures usage { result ≡ Err Usage →
        fault_of (app_of command.entry) (map string_bytes words.entry.now) ≡ [] → ⊥ }
{
    match command.try_get_matches_from(words) {
        Ok(matches) => Ok(matches),
        Err(error) => Err(why(&error)),
    }
}

fn why(error: &Error) -> Misread
    ensures { result ≡ Usage → kind_of error.now ≡ ErrorKind.OutOfMemory → ⊥ }
{
    match error.kind() {
        ErrorKind::OutOfMemory => Misread::OutOfMemory,
        _ => Misread::Usage,
    }
}

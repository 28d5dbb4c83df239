ghost use Rattle.std.specs.Prelude.{◌≡◌, ◌≤◌, map, option_map, IfOk, IfSome};
ghost use Rattle.std.specs.String.{string_bytes};
ghost use Rattle.clap.specs.Words.{rows_of, found_of};
ghost use Rattle.wh_words.specs.Number.{given_number};
ghost use Rattle.wh_words.specs.Task.{IsInRange, Reads};
ghost use Rattle.wh_words.specs.Words.{asked, asked_behind, run_meant, bench_meant};
ghost use Rattle.wh_words.specs.Words.{run_of, bench_of, workers_in, clock_in};

use crate::command::{bench_command, matched, run_command};
use crate::number::number_in;
use crate::{Misread, Task};
use clap::ArgMatches;
use std::alloc::Global;

/// What words ask for. The first says which command, and the others are read by it.
pub fn read_words(alloc: Global, words: &[String]) -> Result<Task, Misread>
    ensures reads { Reads result (asked (map string_bytes words.now)) }
    ensures ranges { IfOk result IsInRange }
{
    match words {
        [] => Err(Misread::Usage),
        [first, ..] => read_behind(alloc, first.as_str(), words),
    }
}

fn read_behind(alloc: Global, first: &str, words: &[String]) -> Result<Task, Misread>
    ensures reads { Reads result (asked_behind first.now (map string_bytes words.now)) }
    ensures ranges { IfOk result IsInRange }
{
    match first {
        "run" => read_run(alloc, words),
        "bench" => read_bench(alloc, words),
        _ => Err(Misread::Usage),
    }
}

// What `run` and the words behind it ask for.
fn read_run(alloc: Global, words: &[String]) -> Result<Task, Misread>
    ensures reads { Reads result (run_meant (map string_bytes words.now)) }
    ensures ranges { IfOk result IsInRange }
{
    let command = run_command(alloc)?;
    match matched(command, words) {
        Ok(matches) => told(run_task(&matches)),
        Err(fault) => Err(fault),
    }
}

// What `bench` and the words behind it ask for.
fn read_bench(alloc: Global, words: &[String]) -> Result<Task, Misread>
    ensures reads { Reads result (bench_meant (map string_bytes words.now)) }
    ensures ranges { IfOk result IsInRange }
{
    let command = bench_command(alloc)?;
    match matched(command, words) {
        Ok(matches) => told(bench_task(&matches)),
        Err(fault) => Err(fault),
    }
}

// The task of the matches of `run`.
fn run_task(matches: &ArgMatches<'_>) -> Option<Task>
    ensures task { result ≡ run_of (rows_of (found_of matches.now)) }
    ensures ranges { IfSome result IsInRange }
{
    let workers = workers_of(matches.get_str("workers"))?;
    let system_clock = clock_of(matches.get_str("clock"))?;
    Some(Task::Run {
        workers,
        system_clock,
    })
}

// The task of the matches of `bench`.
fn bench_task(matches: &ArgMatches<'_>) -> Option<Task>
    ensures task { result ≡ bench_of (rows_of (found_of matches.now)) }
    ensures ranges { IfSome result IsInRange }
{
    let workers = workers_of(matches.get_str("workers"))?;
    let rows = number_in(matches.get_str("N"), 0, 200_000)?;
    let seed = number_in(matches.get_str("SEED"), 1, 2_147_483_646)?;
    Some(Task::Bench {
        workers,
        rows,
        seed,
    })
}

// The task, if there is one.
fn told(task: Option<Task>) -> Result<Task, Misread>
    requires { IfSome task IsInRange }
    ensures reads { Reads result task }
    ensures ranges { IfOk result IsInRange }
{
    task.ok_or(Misread::Usage)
}

fn workers_of(given: Option<&str>) -> Option<u32>
    ensures number { result ≡ workers_in (option_map (λ s. s.now) given.entry) }
    ensures range { IfSome result (λ workers. (1 ≤ workers) × (workers ≤ 64)) }
{
    number_in(given, 1, 64)
}

// Whether the system's clock is asked for.
fn clock_of(given: Option<&str>) -> Option<bool>
    ensures { result ≡ clock_in (option_map (λ s. s.now) given.entry) }
{
    match given {
        None => Some(false),
        Some("system") => Some(true),
        Some(_) => None,
    }
}

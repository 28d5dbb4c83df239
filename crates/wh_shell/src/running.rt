ghost use Rattle.std.specs.Prelude.{◌≡◌, ◌<◌, ◌≤◌, ◌^◌, Some, None, false, option_map, IfSome};
ghost use Rattle.wh_words.specs.Task.{IsInRange};
ghost use Rattle.wh_shell.specs.Asked.{asked_by, RefusesWords, Generates, CarriesOut, wants_clock};
ghost use Rattle.wh_shell.specs.Events.{events};
ghost use Rattle.wh_shell.specs.Open.{IsOpen};
ghost use Rattle.wh_shell.specs.Point.{starting};
ghost use Rattle.wh_shell.specs.Promised.{RunsWithin};
ghost use Rattle.wh_shell.specs.Run.{StopsWhereTooLong};
ghost use Rattle.wh_shell.specs.Serving.{EndsAs};
ghost use Rattle.wh_shell.specs.Ticking.{TakesFor};
ghost use Rattle.wh_shell.specs.Timing.{timing_of};
ghost use Rattle.wh_shell.specs.World.{world_of};

use crate::serving::serve;
use crate::{Fault, Status, Terms};
use std::alloc::Global;
use std::thread::Threads;
use wh_engine::Warehouse;
use wh_generator::Generator;
use wh_words::{Misread, Task, read_words};
use wh_world::{Clock, Disk, Sink, Source};

// The most bytes of a file.
const MOST_BYTES: u64 = 1 << 40;

/// Carries out what the words ask for over the file of a disk, and writes the replies. Hands the
/// disk back.
pub fn run<S: Source, K: Sink, D: Disk, C: Clock>(
    rt: &(impl Threads + Sync),
    alloc: Global,
    words: &[String],
    script: &mut S,
    out: &mut K,
    disk: D,
    clock: &mut C,
) -> (Status, D)
    // Words that aren't in the grammar are refused, and nothing is touched.
    ensures usage { RefusesWords (asked_by words.now) result.0 }
    ensures untouched { asked_by words.now ≡ None →
        world_of result.1 script.new out.new ≡ world_of disk script.old out.old }

    // The replies are the machine's, and the file has its commits, whatever a crash does: of the
    // script's events, or of the generated script's.
    ensures task { IfSome (asked_by words.now) (λ task. CarriesOut D.Disk S.Source K.Sink
        (C.readings clock.old) task (world_of disk script.old out.old)
        (world_of result.1 script.new out.new) result.0) }

    // Each event has one reading of the system's clock, if that is asked for; else it isn't read.
    ensures clock { TakesFor C.Clock (wants_clock (asked_by words.now))
        (option_map events (S.left script.old)) result.0 clock.old clock.new }
{
    match read_words(alloc, words) {
        Ok(task) => carry_out(rt, alloc, task, script, out, disk, clock),
        Err(Misread::Usage) => (Status::Usage, disk),
        Err(Misread::OutOfMemory) => (Status::Stopped(Fault::OutOfMemory), disk),
    }
}

fn carry_out<S: Source, K: Sink, D: Disk, C: Clock>(
    rt: &(impl Threads + Sync),
    alloc: Global,
    task: Task,
    script: &mut S,
    out: &mut K,
    disk: D,
    clock: &mut C,
) -> (Status, D)
    requires { IsInRange task }
    ensures task { CarriesOut D.Disk S.Source K.Sink (C.readings clock.old) task
        (world_of disk script.old out.old) (world_of result.1 script.new out.new) result.0 }
    ensures clock { TakesFor C.Clock (wants_clock (Some task))
        (option_map events (S.left script.old)) result.0 clock.old clock.new }
{
    match task {
        Task::Run {
            workers,
            system_clock,
        } => {
            let terms = Terms {
                workers,
                system_clock,
                limit: MOST_BYTES,
            };
            run_within(rt, alloc, terms, script, out, disk, clock)
        }
        Task::Bench {
            workers,
            rows,
            seed,
        } => bench(rt, alloc, workers, rows, seed, out, disk, clock),
    }
}

// Carries out the generated script.
fn bench<K: Sink, D: Disk, C: Clock>(
    rt: &(impl Threads + Sync),
    alloc: Global,
    workers: u32,
    rows: u32,
    seed: u32,
    out: &mut K,
    disk: D,
    clock: &mut C,
) -> (Status, D)
    requires some_worker { 1 ≤ workers }
    requires most_workers { workers ≤ 64 }
    requires few { rows ≤ 200000 }
    requires below { seed < 2147483647 }
    ensures generates { Generates D.Disk K.Sink rows seed disk out.old result.1 out.new result.0 }
    ensures clock { clock.new ≡ clock.old }
{
    let Ok(mut script) = Generator::new(alloc, rows, seed) else {
        return (Status::Stopped(Fault::OutOfMemory), disk);
    };
    let terms = Terms {
        workers,
        system_clock: false,
        limit: MOST_BYTES,
    };
    run_within(rt, alloc, terms, &mut script, out, disk, clock)
}

/// Carries out a script on these terms.
pub fn run_within<S: Source, K: Sink, D: Disk, C: Clock>(
    rt: &(impl Threads + Sync),
    alloc: Global,
    terms: Terms,
    script: &mut S,
    out: &mut K,
    disk: D,
    clock: &mut C,
) -> (Status, D)
    ensures runs { RunsWithin D.Disk S.Source K.Sink terms.limit
        (timing_of terms.system_clock (C.readings clock.old))
        (world_of disk script.old out.old) (world_of result.1 script.new out.new) result.0 }
    ensures clock { TakesFor C.Clock terms.system_clock
        (option_map events (S.left script.old)) result.0 clock.old clock.new }
{
    match Warehouse::open(rt, alloc, disk, terms.workers, terms.limit) {
        Ok(warehouse) => {
            let system = terms.system_clock;
            serve_and_close(rt, alloc, warehouse, system, script, out, clock)
        }
        Err((fault, disk)) => (Status::of(Err(Fault::from(fault))), disk),
    }
}

// Serves a script over an open warehouse, and hands its disk back.
fn serve_and_close<S: Source, K: Sink, D: Disk, C: Clock>(
    rt: &(impl Threads + Sync),
    alloc: Global,
    mut warehouse: Warehouse<D>,
    system: bool,
    script: &mut S,
    out: &mut K,
    clock: &mut C,
) -> (Status, D)
    requires { IsOpen warehouse }
    ensures ends { EndsAs D.Disk S.Source K.Sink
        (starting S.Source C.Clock system warehouse script.old out.old clock.old)
        (world_of result.1 script.new out.new) result.0 }
    ensures long { StopsWhereTooLong S.Source script.old script.new result.0 }
    ensures clock { TakesFor C.Clock system
        (option_map events (S.left script.old)) result.0 clock.old clock.new }
{
    let served = serve(rt, alloc, &mut warehouse, system, script, out, clock);
    (Status::of(served), warehouse.close())
}

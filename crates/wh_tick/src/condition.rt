//! WHEN of a task: whether it holds, by what its streams have to show.
ghost use Rattle.std.specs.Prelude.{◌≡◌, ◌++◌, IfOk, OnOk};
ghost use Rattle.wh_fetch.specs.Device.{Counts};
ghost use Rattle.wh_fetch.specs.DiskFetch.{told_of, damage_of, faults_of, IsRight, GoesOn};
ghost use Rattle.wh_ddl_naming.specs.Names.{names_at};
ghost use Rattle.wh_machine.specs.Ticks as machine;
ghost use Rattle.wh_machine.specs.Ticks.{guard_of, guard_verdict};
ghost use Rattle.wh_decide.specs.Sight.{machine_in, IsShown};
ghost use Rattle.wh_tick.specs.Guards.{verdict_of};

use crate::guards::guard_refusal;
use crate::lookups::{id_of, stream_at};
use sqlite_items::Boxed;
use std::alloc::{AllocError, Global};
use wh_ast::{When, WhenCondition};
use wh_decide::Sight;
use wh_fetch::{DiskFetch, FetchFault};
use wh_reply::Refusal;
use wh_stream::has_data;
use wh_value::Text;
use wh_world::Disk;

/// What a task's condition says.
#[derive(Debug, Drop)]
pub(crate) enum Verdict {
    Fails(Refusal),
    Holds,
    HoldsNot,
}

/// What the condition of a task says, whose statement is one of session 0. One without a condition
/// runs.
pub(crate) fn task_verdict<D: Disk>(
    alloc: Global,
    sight: &Sight<'_>,
    when: &Option<Boxed<When>>,
    fetch: &mut DiskFetch<D>,
) -> Result<Verdict, FetchFault>
    requires ticking { sight.now.session ≡ 0 }
    requires right { IsRight D.Disk fetch.old }
    ensures verdict { IsShown (told_of D.Disk fetch.old) sight.now
        → IfOk result (λ verdict. verdict_of verdict
        ≡ machine.verdict (machine_in sight.now) when.now) }
    ensures same { told_of D.Disk fetch.new ≡ told_of D.Disk fetch.old }
    ensures sound { IsShown (told_of D.Disk fetch.old) sight.now
        → damage_of fetch.new ≡ damage_of fetch.old }
    ensures goes { GoesOn D.Disk fetch.old fetch.new }
    ensures counts { Counts (faults_of D.Disk fetch.old) (faults_of D.Disk fetch.new) result }
{
    match when {
        Some(when) => condition_verdict(alloc, sight, &when.get().condition, fetch),
        None => Ok(Verdict::Holds),
    }
}

fn condition_verdict<D: Disk>(
    alloc: Global,
    sight: &Sight<'_>,
    condition: &WhenCondition,
    fetch: &mut DiskFetch<D>,
) -> Result<Verdict, FetchFault>
    requires ticking { sight.now.session ≡ 0 }
    requires right { IsRight D.Disk fetch.old }
    ensures verdict { IsShown (told_of D.Disk fetch.old) sight.now
        → IfOk result (λ verdict. verdict_of verdict
        ≡ guard_verdict (machine_in sight.now) (guard_of condition.now)) }
    ensures same { told_of D.Disk fetch.new ≡ told_of D.Disk fetch.old }
    ensures sound { IsShown (told_of D.Disk fetch.old) sight.now
        → damage_of fetch.new ≡ damage_of fetch.old }
    ensures goes { GoesOn D.Disk fetch.old fetch.new }
    ensures counts { Counts (faults_of D.Disk fetch.old) (faults_of D.Disk fetch.new) result }
{
    let streams = streams_of(alloc, condition)?;
    let found = guard_refusal(alloc, sight, &streams)?;
    if let Some(why) = found {
        return Ok(Verdict::Fails(why));
    }
    let so = holds(alloc, sight, condition, fetch)?;
    if so {
        return Ok(Verdict::Holds);
    }
    Ok(Verdict::HoldsNot)
}

// The streams that a condition asks for, in the order of the text.
fn streams_of(alloc: Global, condition: &WhenCondition) -> Result<Vec<&Text>, AllocError>
    ensures { IfOk result (λ streams. names_at streams.items ≡ (guard_of condition.now).streams) }
{
    let mut streams = Vec::new(alloc);
    add_streams(&mut streams, condition)?;
    Ok(streams)
}

#[cycle(streams)]
#[tactic(auto, unfolding(wh_machine::specs::Ticks::guard_step))]
fn add_streams<'a>(
    streams: &mut Vec<&'a Text>,
    condition: &'a WhenCondition,
) -> Result<(), AllocError>
    ensures { OnOk result (names_at streams.new.items
        ≡ names_at streams.old.items ++ (guard_of condition.now).streams) }
{
    match condition {
        WhenCondition::Or(x, y) => {
            add_streams(streams, x.get())?;
            add_streams(streams, y.get())
        }
        WhenCondition::And(x, y) => {
            add_streams(streams, x.get())?;
            add_streams(streams, y.get())
        }
        WhenCondition::Not(x) => add_streams(streams, x.get()),
        WhenCondition::HasData(name) => {
            streams.push(name)?;
            Ok(())
        }
    }
}

// Whether a condition holds.
#[cycle(holds)]
#[tactic(auto, unfolding(wh_machine::specs::Ticks::guard_step))]
fn holds<D: Disk>(
    alloc: Global,
    sight: &Sight<'_>,
    condition: &WhenCondition,
    fetch: &mut DiskFetch<D>,
) -> Result<bool, FetchFault>
    requires ticking { sight.now.session ≡ 0 }
    requires right { IsRight D.Disk fetch.old }
    ensures holds { IsShown (told_of D.Disk fetch.old) sight.now → IfOk result (λ so. so
        ≡ (guard_of condition.now).holds (machine.shows (machine_in sight.now))) }
    ensures same { told_of D.Disk fetch.new ≡ told_of D.Disk fetch.old }
    ensures sound { IsShown (told_of D.Disk fetch.old) sight.now
        → damage_of fetch.new ≡ damage_of fetch.old }
    ensures goes { GoesOn D.Disk fetch.old fetch.new }
    ensures counts { Counts (faults_of D.Disk fetch.old) (faults_of D.Disk fetch.new) result }
{
    match condition {
        WhenCondition::Or(x, y) => {
            if holds(alloc, sight, x.get(), fetch)? {
                return Ok(true);
            }
            holds(alloc, sight, y.get(), fetch)
        }
        WhenCondition::And(x, y) => {
            if !holds(alloc, sight, x.get(), fetch)? {
                return Ok(false);
            }
            holds(alloc, sight, y.get(), fetch)
        }
        WhenCondition::Not(x) => {
            let so = holds(alloc, sight, x.get(), fetch)?;
            Ok(!so)
        }
        WhenCondition::HasData(name) => shows(alloc, sight, name, fetch),
    }
}

// Whether the stream of a name has rows to show.
fn shows<D: Disk>(
    alloc: Global,
    sight: &Sight<'_>,
    name: &Text,
    fetch: &mut DiskFetch<D>,
) -> Result<bool, FetchFault>
    requires ticking { sight.now.session ≡ 0 }
    requires right { IsRight D.Disk fetch.old }
    ensures shows { IsShown (told_of D.Disk fetch.old) sight.now
        → IfOk result (λ has. has ≡ machine.shows (machine_in sight.now) name.now) }
    ensures same { told_of D.Disk fetch.new ≡ told_of D.Disk fetch.old }
    ensures sound { IsShown (told_of D.Disk fetch.old) sight.now
        → damage_of fetch.new ≡ damage_of fetch.old }
    ensures goes { GoesOn D.Disk fetch.old fetch.new }
    ensures counts { Counts (faults_of D.Disk fetch.old) (faults_of D.Disk fetch.new) result }
{
    let Some(id) = id_of(sight.catalog, name) else {
        return Ok(false);
    };
    let Some(stream) = stream_at(sight.catalog, id) else {
        return Ok(false);
    };
    has_data(alloc, sight.catalog, stream, sight.start(), fetch)
}

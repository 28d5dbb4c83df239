ghost use Rattle.std.specs.Prelude.{◌≡◌, IfOk};
ghost use Rattle.wh_fetch.specs.Device.{Counts};
ghost use Rattle.wh_fetch.specs.DiskFetch.{told_of, faults_of, damage_of, IsRight, GoesOn};
ghost use Rattle.wh_bound_change.specs.View as changes;
ghost use Rattle.wh_ddl_bind.specs.View as view;
ghost use Rattle.wh_dml.specs.View.{effect_of};
ghost use Rattle.wh_machine.specs.Changes.{Gives, given_on};
ghost use Rattle.wh_machine.specs.Reading.{instance_read};
ghost use Rattle.wh_machine.specs.Statements as machine;
ghost use Rattle.wh_state.specs.Objects.{table_at};
ghost use Rattle.wh_decide.specs.Changes.{comes_to, IsTableOf};
ghost use Rattle.wh_decide.specs.Sight.{machine_in, objects_seen, IsShown, Comes, IsReady};

use crate::decision::Decision;
use crate::effects::effect_seen;
use crate::reading::{first_locked, sources_refusal, streams_among};
use crate::settling::{alone, staged};
use crate::sight::Sight;
use std::alloc::Global;
use std::thread::Threads;
use wh_bound_change::BoundChange;
use wh_catalog::StoredTable;
use wh_dml::{Effect, EffectFault};
use wh_fetch::{DiskFetch, FetchFault};
use wh_reply::Refusal;
use wh_workers::Workers;
use wh_world::Disk;

/// What INSERT, UPDATE, DELETE and MERGE come to that nothing is found wrong with: in a transaction
/// their effect is staged. Outside of one it is a transaction of its own, which makes a new version
/// of the target, where a row counts, and moves the offsets of the streams that they read; there is
/// no commit where there is neither.
#[tactic(auto, using(wh_fetch::specs::DiskFetch::goes_on, wh_fetch::specs::DiskFetch::goes_none))]
pub fn change_rows<R: Threads + Sync, D: Disk>(
    workers: &Workers<'_, R>,
    sight: &Sight<'_>,
    bound: &BoundChange,
    fetch: &mut DiskFetch<D>,
) -> Result<Decision, FetchFault>
    requires { IsRight D.Disk fetch.old }
    ensures comes { IsShown (told_of D.Disk fetch.old) sight.now
        → IfOk result (λ decision. Comes sight.now decision (machine.changes_rows
        (machine_in sight.now) sight.now.session (view.change_of bound.now))) }
    ensures ready { IfOk result (λ decision. IsReady sight.now decision) }
    ensures sound { IsShown (told_of D.Disk fetch.old) sight.now
        → damage_of fetch.new ≡ damage_of fetch.old }
    ensures same { told_of D.Disk fetch.new ≡ told_of D.Disk fetch.old }
    ensures goes { GoesOn D.Disk fetch.old fetch.new }
    ensures counts { Counts (faults_of D.Disk fetch.old) (faults_of D.Disk fetch.new) result }
{
    if let Some(why) = sources_refusal(workers.alloc, sight, bound.is_wide, &bound.sources)? {
        return Ok(Decision::Refuse(why));
    }
    let streams = streams_among(workers.alloc, sight.catalog, &bound.sources)?;
    if let Some(number) = first_locked(sight, bound.target, &streams) {
        return Ok(Decision::Refuse(Refusal::Locked(number)));
    }
    change_free(workers, sight, bound, streams, fetch)
}

// What a change comes to that passes each test before its evaluation, and reads these streams.
#[tactic(auto, using(wh_fetch::specs::DiskFetch::goes_on, wh_fetch::specs::DiskFetch::goes_none))]
fn change_free<R: Threads + Sync, D: Disk>(
    workers: &Workers<'_, R>,
    sight: &Sight<'_>,
    bound: &BoundChange,
    streams: Vec<u32>,
    fetch: &mut DiskFetch<D>,
) -> Result<Decision, FetchFault>
    requires { IsRight D.Disk fetch.old }
    ensures comes { IsShown (told_of D.Disk fetch.old) sight.now
        → IfOk result (λ decision. Comes sight.now decision
        (comes_to sight.now (given_on streams.items
        (instance_read (machine_in sight.now) sight.now.session bound.now.sources.items)
        (view.change_of bound.now) (table_at (objects_seen sight.now) bound.now.target)))) }
    ensures ready { IfOk result (λ decision. IsReady sight.now decision) }
    ensures sound { IsShown (told_of D.Disk fetch.old) sight.now
        → damage_of fetch.new ≡ damage_of fetch.old }
    ensures same { told_of D.Disk fetch.new ≡ told_of D.Disk fetch.old }
    ensures goes { GoesOn D.Disk fetch.old fetch.new }
    ensures counts { Counts (faults_of D.Disk fetch.old) (faults_of D.Disk fetch.new) result }
{
    let Some(table) = sight.catalog.table(bound.target) else {
        return Ok(Decision::Refuse(Refusal::TypeMismatch));
    };
    match effect_seen(workers, sight, bound, fetch)? {
        Ok(effect) => settle(workers.alloc, sight, bound, streams, table, effect, fetch),
        Err(EffectFault::NumberOutOfRange) => Ok(Decision::Refuse(Refusal::NumberOutOfRange)),
        Err(EffectFault::AmbiguousMerge(row)) => {
            Ok(Decision::Refuse(Refusal::AmbiguousMerge(row)))
        }
        Err(EffectFault::OutOfMemory) => Err(FetchFault::OutOfMemory),
    }
}

// What an effect on the target comes to.
#[tactic(auto, using(wh_fetch::specs::DiskFetch::goes_on, wh_fetch::specs::DiskFetch::goes_none))]
fn settle<D: Disk>(
    alloc: Global,
    sight: &Sight<'_>,
    bound: &BoundChange,
    streams: Vec<u32>,
    table: &StoredTable,
    effect: Effect,
    fetch: &mut DiskFetch<D>,
) -> Result<Decision, FetchFault>
    requires right { IsRight D.Disk fetch.old }
    requires table { IsTableOf sight.now bound.now.target table.now }
    ensures comes { IsShown (told_of D.Disk fetch.old) sight.now
        → IfOk result (λ decision. Comes sight.now decision
        (comes_to sight.now (Gives bound.now.target streams.items
        (changes.change_of bound.now.change) (effect_of effect)))) }
    ensures ready { IfOk result (λ decision. IsReady sight.now decision) }
    ensures sound { IsShown (told_of D.Disk fetch.old) sight.now
        → damage_of fetch.new ≡ damage_of fetch.old }
    ensures same { told_of D.Disk fetch.new ≡ told_of D.Disk fetch.old }
    ensures goes { GoesOn D.Disk fetch.old fetch.new }
    ensures counts { Counts (faults_of D.Disk fetch.old) (faults_of D.Disk fetch.new) result }
{
    if sight.sessions.number(sight.session).is_some() {
        return Ok(staged(sight.session, bound, streams, table.next_row(), effect));
    }
    alone(alloc, sight, bound, &streams, effect, fetch)
}

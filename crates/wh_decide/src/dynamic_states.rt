//! ALTER DYNAMIC TABLE, and refreshes.
ghost use Rattle.std.specs.Prelude.{◌≡◌, ◌≤◌, ◌∷◌, [], ℕ, List, Some, None, map, option_map, IfOk};
ghost use Rattle.wh_part.specs.declared.meta.PartId.{PartId};
ghost use Rattle.wh_fetch.specs.Device.{Counts};
ghost use Rattle.wh_fetch.specs.DiskFetch.{told_of, faults_of, damage_of, IsRight, GoesOn};
ghost use Rattle.wh_value.specs.Limit.{bound};
ghost use Rattle.wh_value.specs.declared.limit.Limit.TheVariants as limits;
ghost use Rattle.wh_reply.specs.View.{refusal_view};
ghost use Rattle.wh_state.specs.Dynamic.{Dynamic};
ghost use Rattle.wh_state.specs.Objects.{dynamic_at};
ghost use Rattle.wh_machine.specs.Definitions.{defines};
ghost use Rattle.wh_machine.specs.Dynamics as machine;
ghost use Rattle.wh_machine.specs.Refresh as refreshes;
ghost use Rattle.wh_dynamic.specs.View as view;
ghost use Rattle.wh_record.specs.View.{change_of};
ghost use Rattle.wh_catalog.specs.declared.catalog.Catalog.{Catalog};
ghost use Rattle.wh_catalog.specs.Catalog.{stored_of, state_of};
ghost use Rattle.wh_refresh.specs.Refreshing.{besides, RefreshesAs, AreRead};
ghost use Rattle.wh_decide.specs.Dynamics.{put_written, put_written_to};
ghost use Rattle.wh_decide.specs.Dynamics.{resumed_state, suspended_state, lag_state};
ghost use Rattle.wh_decide.specs.Decision.{answer_of};
ghost use Rattle.wh_decide.specs.RefreshAsked.{AsksToBring, AsksAsReplied};
ghost use Rattle.wh_decide.specs.Sight.{machine_in, IsShown, IsSound, Comes, IsReady};

use crate::decision::Decision;
use crate::definitions::{defined, definition_refusal, tested};
use crate::lags::{above_refusal, below_refusal, lag_refusal, seconds_of};
use crate::reading::name_of;
use crate::sight::Sight;
use crate::transactions::refused_in_transaction;
use std::alloc::{AllocError, Global};
use std::thread::Threads;
use wh_ast::Lag;
use wh_catalog::Catalog;
use wh_dynamic::{DynamicState, upstream};
use wh_fetch::{DiskFetch, FetchFault};
use wh_record::Change;
use wh_refresh::{Asked, Refreshing, all_objects, refresh};
use wh_reply::{Refusal, Reply};
use wh_workers::Workers;
use wh_world::Disk;

// ---- states

// What ALTER DYNAMIC TABLE .. RESUME comes to, of a dynamic table. It forgets the failures.
pub(crate) fn resume_dynamic(
    alloc: Global,
    sight: &Sight<'_>,
    id: u32,
) -> Result<Decision, AllocError>
    ensures { IfOk result (λ decision. Comes sight.now decision
        (defines (machine_in sight.now) sight.now.session None
        (machine.resume_dynamic (machine_in sight.now) None id))) }
{
    let reply = Reply::Resumed(name_of(alloc, sight.catalog, id)?);
    let changes = resumption(alloc, sight.catalog, id)?;
    Ok(tested(sight, None, None, reply, changes))
}

fn resumption(alloc: Global, catalog: &Catalog, id: u32) -> Result<Vec<Change>, AllocError>
    ensures { IfOk result (λ changes. map change_of changes.items
        ≡ put_written_to id resumed_state (dynamic_at (stored_of catalog.now).objects id)) }
{
    match catalog.dynamic(id) {
        Some(dynamic) => put_state(alloc, id, dynamic.state(), resumed(dynamic.state())),
        None => Ok(Vec::new(alloc)),
    }
}

fn resumed(state: DynamicState) -> DynamicState
    ensures { view.state_of result ≡ resumed_state (view.state_of state) }
{
    DynamicState {
        is_suspended: false,
        failures: 0,
        tried: 0,
        ..state
    }
}

// What ALTER DYNAMIC TABLE .. SUSPEND comes to, of a dynamic table.
pub(crate) fn suspend_dynamic(
    alloc: Global,
    sight: &Sight<'_>,
    id: u32,
) -> Result<Decision, AllocError>
    ensures { IfOk result (λ decision. Comes sight.now decision
        (defines (machine_in sight.now) sight.now.session None
        (machine.suspend_dynamic (machine_in sight.now) None id))) }
{
    let reply = Reply::Suspended(name_of(alloc, sight.catalog, id)?);
    let changes = suspension(alloc, sight.catalog, id)?;
    Ok(tested(sight, None, None, reply, changes))
}

fn suspension(alloc: Global, catalog: &Catalog, id: u32) -> Result<Vec<Change>, AllocError>
    ensures { IfOk result (λ changes. map change_of changes.items
        ≡ put_written_to id suspended_state (dynamic_at (stored_of catalog.now).objects id)) }
{
    match catalog.dynamic(id) {
        Some(dynamic) => put_state(alloc, id, dynamic.state(), suspended(dynamic.state())),
        None => Ok(Vec::new(alloc)),
    }
}

fn suspended(state: DynamicState) -> DynamicState
    ensures { view.state_of result ≡ suspended_state (view.state_of state) }
{
    DynamicState {
        is_suspended: true,
        ..state
    }
}

// What ALTER DYNAMIC TABLE .. SET TARGET_LAG comes to, of a dynamic table.
pub(crate) fn set_lag(
    alloc: Global,
    sight: &Sight<'_>,
    id: u32,
    lag: Lag,
) -> Result<Decision, AllocError>
    ensures { IfOk result (λ decision. Comes sight.now decision
        (defines (machine_in sight.now) sight.now.session None
        (machine.set_lag (machine_in sight.now) None id lag))) }
{
    let wrong = new_lag_refusal(alloc, sight.catalog, id, lag)?;
    if let Some(why) = definition_refusal(sight, None, wrong) {
        return Ok(Decision::Refuse(why));
    }
    let reply = Reply::Altered(name_of(alloc, sight.catalog, id)?);
    let changes = new_lag(alloc, sight.catalog, id, lag)?;
    Ok(defined(sight, reply, changes))
}

fn new_lag(alloc: Global, catalog: &Catalog, id: u32, lag: Lag) -> Result<Vec<Change>, AllocError>
    requires { machine.seconds_of lag ≤ bound limits.MostTargetLag }
    ensures { IfOk result (λ changes. map change_of changes.items
        ≡ put_written_to id (lag_state lag) (dynamic_at (stored_of catalog.now).objects id)) }
{
    match catalog.dynamic(id) {
        Some(dynamic) => put_state(alloc, id, dynamic.state(), with_lag(dynamic.state(), lag)),
        None => Ok(Vec::new(alloc)),
    }
}

fn with_lag(state: DynamicState, lag: Lag) -> DynamicState
    requires { machine.seconds_of lag ≤ bound limits.MostTargetLag }
    ensures { view.state_of result ≡ lag_state lag (view.state_of state) }
{
    DynamicState {
        lag: seconds_of(lag) as u32,
        ..state
    }
}

fn new_lag_refusal(
    alloc: Global,
    catalog: &Catalog,
    id: u32,
    lag: Lag,
) -> Result<Option<Refusal>, AllocError>
    ensures { IfOk result (λ found. option_map refusal_view found
        ≡ machine.lag_refusal (state_of catalog.now) None id lag) }
{
    let all = catalog.watched(alloc)?;
    let reads = upstream(alloc, &all, id)?;
    let name = name_of(alloc, catalog, id)?;
    let below = below_refusal(alloc, catalog, &name, lag, &reads)?;
    let above = above_refusal(alloc, catalog, id, lag)?;
    Ok(below.or(above).or(lag_refusal(lag)))
}

// What is written for a dynamic table of another state, nothing where it is so already.
fn put_state(
    alloc: Global,
    id: u32,
    old: DynamicState,
    new: DynamicState,
) -> Result<Vec<Change>, AllocError>
    ensures { IfOk result (λ changes. map change_of changes.items
        ≡ put_written id (view.state_of old) (view.state_of new)) }
{
    if is_same_state(old, new) {
        return Ok(Vec::new(alloc));
    }
    Ok(vec![in alloc; Change::SetsDynamic { id, state: new }]?)
}

fn is_same_state(old: DynamicState, new: DynamicState) -> bool
    ensures { result ≡ machine.is_same_dynamic_state (view.state_of old) (view.state_of new) }
{
    old.lag == new.lag
        && old.is_suspended == new.is_suspended
        && old.failures == new.failures
        && old.tried == new.tried
        && old.moment == new.moment
}

// ---- refreshes

// What ALTER DYNAMIC TABLE .. REFRESH comes to, of a dynamic table: it is brought to the stamp of
// the statement.
#[tactic(auto, using(wh_fetch::specs::DiskFetch::goes_on, wh_fetch::specs::DiskFetch::goes_none))]
pub(crate) fn refresh_dynamic<R: Threads + Sync, D: Disk>(
    workers: &Workers<'_, R>,
    sight: &Sight<'_>,
    id: u32,
    fetch: &mut DiskFetch<D>,
) -> Result<Decision, FetchFault>
    requires { IsRight D.Disk fetch.old }
    ensures comes { IsShown (told_of D.Disk fetch.old) sight.now → IsSound sight.now
        → IfOk result (λ decision. Comes sight.now decision
        (defines (machine_in sight.now) sight.now.session None
        (machine.refresh_dynamic (machine_in sight.now) None id))) }
    ensures ready { IfOk result (λ decision. IsReady sight.now decision) }
    ensures fetches { IfOk result (λ decision. AsksAsReplied sight.now.catalog.now
        (Some (id, sight.now.stamp)) fetch.old.asked.items fetch.new.asked.items
        (answer_of decision)) }
    ensures sound { IsShown (told_of D.Disk fetch.old) sight.now
        → damage_of fetch.new ≡ damage_of fetch.old }
    ensures same { told_of D.Disk fetch.new ≡ told_of D.Disk fetch.old }
    ensures goes { GoesOn D.Disk fetch.old fetch.new }
    ensures counts { Counts (faults_of D.Disk fetch.old) (faults_of D.Disk fetch.new) result }
{
    if let Some(why) = refused_in_transaction(sight) {
        return Ok(Decision::Refuse(why));
    }
    let found = refreshing(workers, sight, Asked::ByStatement, id, sight.stamp, fetch)?;
    Ok(refreshed(sight, found))
}

fn refreshed(sight: &Sight<'_>, found: Refreshing) -> Decision
    ensures comes { (outcome : refreshes.Refreshing) → RefreshesAs sight.now.stamp
        (stored_of sight.now.catalog.now).objects found outcome
        → Comes sight.now result (machine.refreshed_by (machine_in sight.now) outcome) }
    ensures ready { AreRead found → IsReady sight.now result }
    ensures fetches { (c : Catalog) (id moment : ℕ) (before after : List PartId)
        → AsksToBring c id moment before after found
        → AsksAsReplied c (Some (id, moment)) before after (answer_of result) }
{
    match found {
        Refreshing::Fails(why) => Decision::Refuse(why),
        Refreshing::Brings(lines, changes) => {
            defined(sight, Reply::RefreshedTables(lines), changes)
        }
    }
}

// A refresh of a dynamic table of the catalog.
#[tactic(auto, using(wh_fetch::specs::DiskFetch::goes_on, wh_fetch::specs::DiskFetch::goes_none))]
fn refreshing<R: Threads + Sync, D: Disk>(
    workers: &Workers<'_, R>,
    sight: &Sight<'_>,
    asked: Asked,
    id: u32,
    moment: u64,
    fetch: &mut DiskFetch<D>,
) -> Result<Refreshing, FetchFault>
    requires { IsRight D.Disk fetch.old }
    ensures refreshes { IsShown (told_of D.Disk fetch.old) sight.now → IsSound sight.now
        → IfOk result (λ found. RefreshesAs sight.now.stamp
        (stored_of sight.now.catalog.now).objects found
        (refreshes.refresh (machine_in sight.now).state
        (besides asked (state_of sight.now.catalog.now).objects id) id moment)) }
    ensures read { IfOk result (λ found. AreRead found) }
    ensures fetches { IfOk result (AsksToBring sight.now.catalog.now id moment
        fetch.old.asked.items fetch.new.asked.items) }
    ensures sound { IsShown (told_of D.Disk fetch.old) sight.now
        → damage_of fetch.new ≡ damage_of fetch.old }
    ensures same { told_of D.Disk fetch.new ≡ told_of D.Disk fetch.old }
    ensures goes { GoesOn D.Disk fetch.old fetch.new }
    ensures counts { Counts (faults_of D.Disk fetch.old) (faults_of D.Disk fetch.new) result }
{
    let objects = all_objects(workers.alloc, sight.catalog, None)?;
    refresh(workers, &objects, asked, id, moment, fetch)
}

/// What the refresh of a dynamic table that is due comes to. One that fails counts, and is tried
/// for that moment no more.
#[tactic(auto, using(wh_fetch::specs::DiskFetch::goes_on, wh_fetch::specs::DiskFetch::goes_none))]
pub fn scheduled_refresh<R: Threads + Sync, D: Disk>(
    workers: &Workers<'_, R>,
    sight: &Sight<'_>,
    id: u32,
    target: u64,
    fetch: &mut DiskFetch<D>,
) -> Result<Decision, FetchFault>
    requires { IsRight D.Disk fetch.old }
    ensures comes { IsShown (told_of D.Disk fetch.old) sight.now → IsSound sight.now
        → IfOk result (λ decision. Comes sight.now decision
        (machine.scheduled (machine_in sight.now) id target)) }
    ensures ready { IfOk result (λ decision. IsReady sight.now decision) }
    ensures fetches { IfOk result (λ decision. AsksAsReplied sight.now.catalog.now
        (Some (id, target)) fetch.old.asked.items fetch.new.asked.items (answer_of decision)) }
    ensures sound { IsShown (told_of D.Disk fetch.old) sight.now
        → damage_of fetch.new ≡ damage_of fetch.old }
    ensures same { told_of D.Disk fetch.new ≡ told_of D.Disk fetch.old }
    ensures goes { GoesOn D.Disk fetch.old fetch.new }
    ensures counts { Counts (faults_of D.Disk fetch.old) (faults_of D.Disk fetch.new) result }
{
    let found = refreshing(workers, sight, Asked::BySchedule, id, target, fetch)?;
    match found {
        Refreshing::Fails(why) => Ok(failed(workers.alloc, sight, id, target, why)?),
        Refreshing::Brings(lines, changes) => {
            Ok(defined(sight, Reply::RefreshedTables(lines), changes))
        }
    }
}

fn failed(
    alloc: Global,
    sight: &Sight<'_>,
    id: u32,
    target: u64,
    why: Refusal,
) -> Result<Decision, AllocError>
    ensures { IfOk result (λ decision. Comes sight.now decision
        (machine.failed_of (machine_in sight.now) id target (refusal_view why)
        (dynamic_at (state_of sight.now.catalog.now).objects id))) }
{
    match sight.catalog.dynamic(id) {
        Some(dynamic) => counted(alloc, sight, id, target, why, dynamic.state()),
        None => Ok(Decision::Refuse(why)),
    }
}

// A refresh that failed, of a table in that state.
fn counted(
    alloc: Global,
    sight: &Sight<'_>,
    id: u32,
    target: u64,
    why: Refusal,
    state: DynamicState,
) -> Result<Decision, AllocError>
    ensures { IfOk result (λ decision. (d : Dynamic) → d.state ≡ view.state_of state
        → Comes sight.now decision (machine.failed_of (machine_in sight.now) id target
        (refusal_view why) (Some d))) }
{
    let name = name_of(alloc, sight.catalog, id)?;
    let reply = Reply::RefreshFailed {
        name,
        target,
        why,
        is_suspended: state.is_fifth(),
    };
    let changes = vec![in alloc;
        Change::SetsDynamic {
            id,
            state: state.behind_failure(target),
        },
    ]?;
    Ok(defined(sight, reply, changes))
}

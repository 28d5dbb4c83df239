//! A refresh, whole or not at all.
ghost use Rattle.std.specs.Prelude.{◌≡◌, ℕ, not, option_map, IfOk};
ghost use Rattle.std.specs.List.{list_any};
ghost use Rattle.wh_reply.specs.View.{refusal_view};
ghost use Rattle.wh_fetch.specs.Device.{Counts};
ghost use Rattle.wh_filed.specs.Fetching.{AllShownBy, AllCovered};
ghost use Rattle.wh_state.specs.State.{State};
ghost use Rattle.wh_state.specs.Objects as state;
ghost use Rattle.wh_moment.specs.Upstream.{dynamics_of, brought};
ghost use Rattle.wh_moment.specs.Moment.{is_suspended_at};
ghost use Rattle.wh_machine.specs.Refresh as machine;
ghost use Rattle.wh_machine.specs.Dynamics.{first_suspended};
ghost use Rattle.wh_refresh.specs.Objects.{objects_in, stored_in, filed_at_objects};
ghost use Rattle.wh_refresh.specs.Refreshing.{besides, RefreshesAs, AreRead};
ghost use Rattle.wh_refresh.specs.Standing.{AllStand};
ghost use Rattle.wh_refresh.specs.Asked.{AsksAsBrought};

use crate::limits::number_refusal;
use crate::objects::{dynamic_at, is_live_at, name_at, watched};
use crate::waves::bring_all;
use crate::writing::{changes, lines};
use std::alloc::{AllocError, Global};
use std::thread::Threads;
use wh_catalog::StoredObject;
use wh_dynamic::{brought, upstream};
use wh_fetch::{Fetch, FetchFault};
use wh_record::Change;
use wh_reply::{Refreshed, Refusal};
use wh_workers::Workers;

/// Who asks for a refresh: a statement is refused where a table is suspended.
#[derive(Clone, Copy, Debug, PartialEq, Eq)]
pub enum Asked {
    ByStatement,
    BySchedule,
}

/// What a refresh comes to.
#[derive(Debug, Drop)]
pub enum Refreshing {
    Fails(Refusal),
    /// What is told of each table that it brings to the moment, and what is written.
    Brings(Vec<Refreshed>, Vec<Change>),
}

/// The refresh of the table of an id to a moment, with all of its upstream that is below it.
/// `objects` are all objects by their ids.
pub fn refresh<R: Threads + Sync, F: Fetch>(
    workers: &Workers<'_, R>,
    objects: &[&StoredObject],
    asked: Asked,
    id: u32,
    moment: u64,
    fetch: &mut F,
) -> Result<Refreshing, FetchFault>
    requires { AllCovered (F.covers fetch.old) (filed_at_objects objects.now) }
    ensures refreshed { AllShownBy (F.contents fetch.old) (filed_at_objects objects.now)
        → AllStand (objects_in objects.now)
        → IfOk result (λ r. (s : State) → s.objects ≡ objects_in objects.now
        → RefreshesAs s.last (stored_in objects.now) r
        (machine.refresh s (besides asked s.objects id) id moment)) }
    // Over any fetch.
    ensures read { IfOk result (λ r. AreRead r) }
    ensures sound { AllShownBy (F.contents fetch.old) (filed_at_objects objects.now)
        → F.damage fetch.new ≡ F.damage fetch.old }
    ensures asks { IfOk result (AsksAsBrought objects.now moment
        (brought (dynamics_of (objects_in objects.now)) id moment)
        (F.asked fetch.old) (F.asked fetch.new)) }
    ensures same { F.contents fetch.new ≡ F.contents fetch.old }
    ensures goes { F.stays fetch.old fetch.new }
    ensures counts { Counts (F.faults fetch.old) (F.faults fetch.new) result }
{
    let alloc = workers.alloc;
    let all = watched(alloc, objects)?;
    let mut ids = upstream(alloc, &all, id)?;
    ids.push(id)?;
    if let Some(why) = first_lost(alloc, objects, &ids)? {
        return Ok(Refreshing::Fails(why));
    }
    if let Some(why) = suspended(alloc, objects, asked, &ids)? {
        return Ok(Refreshing::Fails(why));
    }
    let ids = brought(alloc, &all, id, moment)?;
    let Some(all) = bring_all(workers, objects, &all, moment, &ids, fetch)? else {
        return Ok(Refreshing::Fails(Refusal::NumberOutOfRange));
    };
    if let Some(why) = number_refusal(objects, &all) {
        return Ok(Refreshing::Fails(why));
    }
    let lines = lines(alloc, objects, moment, &all)?;
    let changes = changes(alloc, objects, moment, all)?;
    Ok(Refreshing::Brings(lines, changes))
}

// The first of some tables of which a source isn't there any more.
fn first_lost(
    alloc: Global,
    objects: &[&StoredObject],
    ids: &[u32],
) -> Result<Option<Refusal>, AllocError>
    ensures { IfOk result (λ why. option_map refusal_view why
        ≡ machine.first_lost (objects_in objects.now) ids.now) }
{
    for id in ids {
        if has_lost(objects, *id) {
            return Ok(Some(Refusal::SourceGone(name_at(alloc, objects, *id)?)));
        }
    }
    Ok(None)
}

fn has_lost(objects: &[&StoredObject], id: u32) -> bool
    ensures { result ≡ machine.lost_source (objects_in objects.now) id }
{
    match dynamic_at(objects, id) {
        Some(dynamic) => some_gone(objects, dynamic.reads()),
        None => false,
    }
}

fn some_gone(objects: &[&StoredObject], sources: &[u32]) -> bool
    ensures { result ≡ list_any (λ source. not (state.is_live_at (objects_in objects.now) source))
        sources.now }
{
    sources.iter().any(|source| !is_live_at(objects, *source))
}

// Where a statement asks, the first of some tables that is suspended.
fn suspended(
    alloc: Global,
    objects: &[&StoredObject],
    asked: Asked,
    ids: &[u32],
) -> Result<Option<Refusal>, AllocError>
    ensures { IfOk result (λ why. (id : ℕ)
        → ids.now ≡ machine.with_upstream (objects_in objects.now) id
        → option_map refusal_view why ≡ besides asked (objects_in objects.now) id) }
{
    match asked {
        Asked::ByStatement => first_suspended(alloc, objects, ids),
        Asked::BySchedule => Ok(None),
    }
}

fn first_suspended(
    alloc: Global,
    objects: &[&StoredObject],
    ids: &[u32],
) -> Result<Option<Refusal>, AllocError>
    ensures { IfOk result (λ why. option_map refusal_view why
        ≡ first_suspended (objects_in objects.now) ids.now) }
{
    for id in ids {
        if is_suspended(objects, *id) {
            return Ok(Some(Refusal::IsSuspended(name_at(alloc, objects, *id)?)));
        }
    }
    Ok(None)
}

fn is_suspended(objects: &[&StoredObject], id: u32) -> bool
    ensures { result ≡ is_suspended_at (dynamics_of (objects_in objects.now)) id }
{
    match dynamic_at(objects, id) {
        Some(dynamic) => dynamic.state().is_suspended,
        None => false,
    }
}

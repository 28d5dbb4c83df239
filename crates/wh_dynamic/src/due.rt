ghost use Rattle.std.specs.Prelude.{◌≡◌, ◌<◌, ◌^◌, false, not, length, option_map, IfOk};
ghost use Rattle.std.specs.Prelude.{if◌then◌else◌, Some};
ghost use Rattle.std.specs.List.{list_any};
ghost use Rattle.std.specs.Option.{option_map_or};
ghost use Rattle.wh_moment.specs.Upstream as upstreams;
ghost use Rattle.wh_moment.specs.Moment as moments;
ghost use Rattle.wh_dynamic.specs.View.{watched_of, dynamics_in, due_of};

use crate::period::grid_point;
use crate::reached::{upstream, watched_at};
use crate::watched::Watched;
use std::alloc::{AllocError, Global};

/// The due table with the least target and then the least id, with its target. `all` are the
/// dynamic tables by their ids from 1. Only of one for which a moment has come is looked at what
/// it reads.
#[tactic(auto, unfolding(wh_moment::specs::Moment::due_table, wh_moment::specs::Moment::is_due))]
pub fn due_table(
    alloc: Global,
    all: &[Option<Watched<'_>>],
    stamp: u64,
) -> Result<Option<(u32, u64)>, AllocError>
    requires { length all.now < 2 ^ 32 }
    ensures { IfOk result (λ due. due_of due ≡ moments.due_table (dynamics_in all.now) stamp) }
{
    let mut found = None;
    let mut id = 0;
    for _table in all {
        id += 1;
        if is_waiting(watched_at(all, id), stamp) {
            found = also_due(alloc, all, stamp, found, id)?;
        }
    }
    Ok(found)
}

// Whether a moment has come for a table, whatever it reads.
fn is_waiting(table: Option<Watched<'_>>, stamp: u64) -> bool
    ensures { result ≡ option_map_or (moments.is_waiting_for stamp)
        (option_map watched_of table.entry) false }
{
    match table {
        Some(table) => is_waiting_for(table, stamp),
        None => false,
    }
}

// DOWNSTREAM is never due.
fn is_waiting_for(table: Watched<'_>, stamp: u64) -> bool
    ensures { result ≡ moments.is_waiting_for stamp (watched_of table.entry) }
{
    let state = table.dynamic.state();
    if !table.is_live || state.is_suspended || state.lag == 0 {
        return false;
    }
    has_come(table, grid_point(state.lag, stamp))
}

// Whether a table neither stands for the moment or a later one nor was tried for it.
fn has_come(table: Watched<'_>, point: u64) -> bool
    ensures { result ≡ moments.has_come point (watched_of table.entry) }
{
    let state = table.dynamic.state();
    let since = if state.moment == 0 {
        table.created
    } else {
        state.moment
    };
    since < point && state.tried < point
}

// The sooner of a due table found before and one for which a moment has come, unless a table
// upstream is suspended.
#[tactic(auto, unfolding(wh_moment::specs::Moment::target))]
fn also_due(
    alloc: Global,
    all: &[Option<Watched<'_>>],
    stamp: u64,
    found: Option<(u32, u64)>,
    id: u32,
) -> Result<Option<(u32, u64)>, AllocError>
    ensures { IfOk result (λ due. due_of due
        ≡ (if not (list_any (moments.is_suspended_at (dynamics_in all.now))
        (upstreams.upstream (dynamics_in all.now) id))
        then Some (moments.sooner (due_of found)
        (id, moments.target (dynamics_in all.now) stamp id))
        else due_of found)) }
{
    let upstream = upstream(alloc, all, id)?;
    if is_one_suspended(all, &upstream) {
        return Ok(found);
    }
    let own = point_of(watched_at(all, id), stamp);
    let target = own.max(greatest_moment(all, &upstream));
    Ok(Some(sooner(found, id, target)))
}

fn is_one_suspended(all: &[Option<Watched<'_>>], ids: &[u32]) -> bool
    ensures { result ≡ list_any (moments.is_suspended_at (dynamics_in all.now)) ids.now }
{
    for id in ids {
        if is_suspended_at(all, *id) {
            return true;
        }
    }
    false
}

fn is_suspended_at(all: &[Option<Watched<'_>>], id: u32) -> bool
    ensures { result ≡ moments.is_suspended_at (dynamics_in all.now) id }
{
    match watched_at(all, id) {
        Some(table) => table.dynamic.state().is_suspended,
        None => false,
    }
}

fn point_of(table: Option<Watched<'_>>, stamp: u64) -> u64
    ensures { result ≡ option_map_or (λ w. moments.grid w.state.lag stamp)
        (option_map watched_of table.entry) 0 }
{
    match table {
        Some(table) => grid_point(table.dynamic.state().lag, stamp),
        None => 0,
    }
}

fn greatest_moment(all: &[Option<Watched<'_>>], ids: &[u32]) -> u64
    ensures { result ≡ moments.greatest_moment (dynamics_in all.now) ids.now }
{
    let mut greatest = 0;
    for id in ids {
        greatest = moment_at(all, *id).max(greatest);
    }
    greatest
}

fn moment_at(all: &[Option<Watched<'_>>], id: u32) -> u64
    ensures { result ≡ moments.moment_at (dynamics_in all.now) id }
{
    match watched_at(all, id) {
        Some(table) => table.dynamic.state().moment,
        None => 0,
    }
}

fn sooner(found: Option<(u32, u64)>, id: u32, target: u64) -> (u32, u64)
    ensures { (result.0, result.1) ≡ moments.sooner (due_of found) (id, target) }
{
    match found {
        Some((first, least)) => {
            if target < least {
                (id, target)
            } else {
                (first, least)
            }
        }
        None => (id, target),
    }
}

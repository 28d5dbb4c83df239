//! Lags of dynamic tables, and what is refused of them.
ghost use Rattle.std.specs.Prelude.{◌≡◌, ◌<◌, ◌^◌, length, option_map, IfOk};
ghost use Rattle.wh_reply.specs.Reply.{LagTooShort};
ghost use Rattle.wh_value.specs.Limit.{bound};
ghost use Rattle.wh_value.specs.declared.limit.Limit.TheVariants as limits;
ghost use Rattle.wh_reply.specs.Reply.{OverLimit};
ghost use Rattle.wh_reply.specs.View.{refusal_view};
ghost use Rattle.std.specs.Option.{option_map_or};
ghost use Rattle.wh_state.specs.Objects.{is_live_at, dynamic_at};
ghost use Rattle.wh_moment.specs.Upstream.{dynamics_of};
ghost use Rattle.wh_moment.specs.Moment.{ids_from};
ghost use Rattle.wh_machine.specs.Tests.{first_of, refused_if};
ghost use Rattle.wh_machine.specs.Dynamics as machine;
ghost use Rattle.wh_dynamic.specs.View.{dynamics_in};
ghost use Rattle.wh_catalog.specs.Catalog.{state_of};
ghost use Rattle.std.specs.Prelude.{nat_lt};

use crate::limits::{refused_if, refused_past};
use crate::reading::name_of;
use std::alloc::{AllocError, Global};
use wh_ast::Lag;
use wh_catalog::Catalog;
use wh_dynamic::{Watched, upstream};
use wh_reply::Refusal;
use wh_value::{Limit, Text};

// In seconds, 0 for DOWNSTREAM.
pub(crate) fn seconds_of(lag: Lag) -> u64
    ensures { result ≡ machine.seconds_of lag }
{
    match lag {
        Lag::Downstream => 0,
        Lag::Seconds(seconds) => seconds,
    }
}

// Where a lag in seconds is below the least one or beyond the greatest.
pub(crate) fn lag_refusal(lag: Lag) -> Option<Refusal>
    ensures { option_map refusal_view result ≡ first_of (machine.lag_refusals lag) }
{
    match lag {
        Lag::Downstream => None,
        Lag::Seconds(seconds) => least_refusal(seconds).or(refused_past(
            Limit::MostTargetLag,
            seconds,
            0,
        )),
    }
}

fn least_refusal(seconds: u64) -> Option<Refusal>
    ensures { option_map refusal_view result ≡ refused_if
        (nat_lt seconds (bound limits.LeastTargetLag)) (OverLimit limits.LeastTargetLag) }
{
    refused_if(
        seconds < Limit::LeastTargetLag.bound(),
        Refusal::OverLimit(Limit::LeastTargetLag),
    )
}

// The lag of a live dynamic table in seconds, and 0 where there is none.
fn live_lag(catalog: &Catalog, id: u32) -> u64
    ensures { result ≡ machine.live_lag (state_of catalog.now).objects id }
{
    if is_live_at(catalog, id) {
        lag_at(catalog, id)
    } else {
        0
    }
}

fn lag_at(catalog: &Catalog, id: u32) -> u64
    ensures { result ≡ option_map_or (λ d. d.state.lag)
        (dynamic_at (state_of catalog.now).objects id) 0 }
{
    match catalog.dynamic(id) {
        Some(dynamic) => dynamic.state().lag as u64,
        None => 0,
    }
}

fn is_live_at(catalog: &Catalog, id: u32) -> bool
    ensures { result ≡ is_live_at (state_of catalog.now).objects id }
{
    match catalog.object(id) {
        Some(object) => object.is_live(),
        None => false,
    }
}

// Where the lag of a table of that name would be below that of one of some dynamic tables.
pub(crate) fn below_refusal(
    alloc: Global,
    catalog: &Catalog,
    name: &Text,
    lag: Lag,
    ids: &[u32],
) -> Result<Option<Refusal>, AllocError>
    ensures { IfOk result (λ found. option_map refusal_view found
        ≡ machine.below_refusal (state_of catalog.now).objects name.now lag ids.now) }
{
    match lag {
        Lag::Downstream => Ok(None),
        Lag::Seconds(seconds) => longer_refusal(alloc, catalog, name, seconds, ids),
    }
}

fn longer_refusal(
    alloc: Global,
    catalog: &Catalog,
    name: &Text,
    lag: u64,
    ids: &[u32],
) -> Result<Option<Refusal>, AllocError>
    ensures { IfOk result (λ found. option_map refusal_view found
        ≡ machine.first_longer (state_of catalog.now).objects name.now lag ids.now) }
{
    for id in ids {
        if lag < live_lag(catalog, *id) {
            let upstream = name_of(alloc, catalog, *id)?;
            return Ok(Some(too_short(alloc, name, upstream)?));
        }
    }
    Ok(None)
}

fn too_short(alloc: Global, table: &Text, upstream: Text) -> Result<Refusal, AllocError>
    ensures { IfOk result (λ why. refusal_view why ≡ LagTooShort table.now upstream) }
{
    let table = table.copy(alloc)?;
    Ok(Refusal::LagTooShort { table, upstream })
}

// Where the lag of the table of an id would be above that of a dynamic table that reads it.
pub(crate) fn above_refusal(
    alloc: Global,
    catalog: &Catalog,
    id: u32,
    lag: Lag,
) -> Result<Option<Refusal>, AllocError>
    ensures { IfOk result (λ found. option_map refusal_view found
        ≡ machine.above_refusal (state_of catalog.now).objects id lag) }
{
    match lag {
        Lag::Downstream => Ok(None),
        Lag::Seconds(seconds) => shorter_refusal(alloc, catalog, id, seconds),
    }
}

fn shorter_refusal(
    alloc: Global,
    catalog: &Catalog,
    id: u32,
    lag: u64,
) -> Result<Option<Refusal>, AllocError>
    ensures { IfOk result (λ found. option_map refusal_view found
        ≡ machine.first_shorter (state_of catalog.now).objects id lag
        (ids_from 1 (state_of catalog.now).objects)) }
{
    let all = catalog.watched(alloc)?;
    first_shorter(alloc, catalog, &all, id, lag)
}

// Of these, all dynamic tables by their ids.
fn first_shorter(
    alloc: Global,
    catalog: &Catalog,
    all: &[Option<Watched<'_>>],
    id: u32,
    lag: u64,
) -> Result<Option<Refusal>, AllocError>
    requires dynamics { dynamics_in all.now ≡ dynamics_of (state_of catalog.now).objects }
    requires few { length all.now < 2 ^ 32 }
    ensures { IfOk result (λ found. option_map refusal_view found
        ≡ machine.first_shorter (state_of catalog.now).objects id lag (ids_from 1 all.now)) }
{
    let mut above = 0;
    for _table in all {
        above += 1;
        if is_shorter_above(alloc, catalog, all, id, lag, above)? {
            let table = name_of(alloc, catalog, above)?;
            let upstream = name_of(alloc, catalog, id)?;
            return Ok(Some(too_short(alloc, &table, upstream)?));
        }
    }
    Ok(None)
}

// Whether a live dynamic table reads one and has a shorter lag.
fn is_shorter_above(
    alloc: Global,
    catalog: &Catalog,
    all: &[Option<Watched<'_>>],
    id: u32,
    lag: u64,
    above: u32,
) -> Result<bool, AllocError>
    requires { dynamics_in all.now ≡ dynamics_of (state_of catalog.now).objects }
    ensures { IfOk result (λ so. so
        ≡ machine.is_shorter_above (state_of catalog.now).objects id lag above) }
{
    let shorter = live_lag(catalog, above);
    if shorter == 0 || lag <= shorter {
        return Ok(false);
    }
    let reads = upstream(alloc, all, above)?;
    Ok(reads.contains(&id))
}

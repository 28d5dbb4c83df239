ghost use Rattle.std.specs.Prelude.{◌≡◌, ◌∷◌, map, option_map, is_some, IfOk};
ghost use Rattle.std.specs.List.{filter};
ghost use Rattle.wh_reply.specs.Reply.{NotInitialized};
ghost use Rattle.wh_reply.specs.View.{refusal_view};
ghost use Rattle.wh_net.specs.Stream.{is_gone};
ghost use Rattle.wh_state.specs.Objects as objects;
ghost use Rattle.wh_state.specs.Objects.{name_at};
ghost use Rattle.wh_machine.specs.Tests.{first_of};
ghost use Rattle.wh_machine.specs.Offsets as streams;
ghost use Rattle.wh_machine.specs.Reading as machine;
ghost use Rattle.wh_machine.specs.Sessions as holds;
ghost use Rattle.wh_catalog.specs.Catalog.{state_of};
ghost use Rattle.wh_txn.specs.View.{sessions_of};
ghost use Rattle.wh_decide.specs.Sight.{machine_in};
ghost use Rattle.wh_decide.specs.Sources.{lower, sources_refusal};

use crate::sight::Sight;
use std::alloc::{AllocError, Global};
use wh_catalog::Catalog;
use wh_reply::Refusal;
use wh_stream::{Stale, is_gone, stale};
use wh_value::{Limit, Text};

// Where a statement can't be carried out over what it reads: a query of it is too wide, or else one
// of its sources can't be read.
pub(crate) fn sources_refusal(
    alloc: Global,
    sight: &Sight<'_>,
    is_wide: bool,
    ids: &[u32],
) -> Result<Option<Refusal>, AllocError>
    ensures { IfOk result (λ found. option_map refusal_view found
        ≡ sources_refusal (machine_in sight.now) is_wide ids.now) }
{
    if is_wide {
        return Ok(Some(Refusal::OverLimit(Limit::Output)));
    }
    reading_refusal(alloc, sight, ids)
}

/// Where one of these sources can't be read: every dynamic table has to have rows, then every
/// stream's source has to be there, and then no stream may lie too far back, in the order of the
/// text.
pub fn reading_refusal(
    alloc: Global,
    sight: &Sight<'_>,
    ids: &[u32],
) -> Result<Option<Refusal>, AllocError>
    ensures { IfOk result (λ found. option_map refusal_view found ≡ machine.reading_refusal
        (state_of sight.now.catalog.now).objects sight.now.stamp ids.now) }
{
    if let Some(id) = first_uninitialized(sight.catalog, ids) {
        let name = name_of(alloc, sight.catalog, id)?;
        return Ok(Some(Refusal::NotInitialized(name)));
    }
    if let Some(id) = least_gone(sight.catalog, ids) {
        let name = name_of(alloc, sight.catalog, id)?;
        return Ok(Some(Refusal::SourceGone(name)));
    }
    Ok(first_stale(sight.catalog, ids, sight.stamp))
}

// The first of them that is a live dynamic table without a version.
fn first_uninitialized(catalog: &Catalog, ids: &[u32]) -> Option<u32>
    ensures { option_map (λ id. NotInitialized (name_at (state_of catalog.now).objects id)) result
        ≡ first_of (map (machine.uninitialized_refusal (state_of catalog.now).objects) ids.now) }
{
    for id in ids {
        if is_uninitialized(catalog, *id) {
            return Some(*id);
        }
    }
    None
}

fn is_uninitialized(catalog: &Catalog, id: u32) -> bool
    ensures { result ≡ machine.is_uninitialized (state_of catalog.now).objects id }
{
    is_dynamic(catalog, id) && is_live(catalog, id) && has_no_version(catalog, id)
}

fn is_dynamic(catalog: &Catalog, id: u32) -> bool
    ensures { result ≡ is_some (objects.dynamic_at (state_of catalog.now).objects id) }
{
    match catalog.dynamic(id) {
        Some(_) => true,
        None => false,
    }
}

fn is_live(catalog: &Catalog, id: u32) -> bool
    ensures { result ≡ objects.is_live_at (state_of catalog.now).objects id }
{
    match catalog.object(id) {
        Some(object) => object.is_live(),
        None => false,
    }
}

fn has_no_version(catalog: &Catalog, id: u32) -> bool
    ensures { result ≡ machine.has_no_version
        (objects.table_at (state_of catalog.now).objects id) }
{
    match catalog.table(id) {
        Some(table) => table.version_count() == 0,
        None => false,
    }
}

// The least id of a stream among them whose source is gone.
fn least_gone(catalog: &Catalog, ids: &[u32]) -> Option<u32>
    ensures { result ≡ machine.least (filter (is_gone (state_of catalog.now).objects) ids.now) }
{
    let mut least = None;
    for id in ids {
        if is_gone(catalog, *id) {
            least = Some(lower(least, *id));
        }
    }
    least
}

fn lower(least: Option<u32>, id: u32) -> u32
    ensures { result ≡ lower least id }
{
    match least {
        Some(other) => other.min(id),
        None => id,
    }
}

/// The name of the object of an id, empty where there is none.
pub fn name_of(alloc: Global, catalog: &Catalog, id: u32) -> Result<Text, AllocError>
    ensures { IfOk result (λ name. name ≡ name_at (state_of catalog.now).objects id) }
{
    match catalog.object(id) {
        Some(object) => {
            let copy = object.name().copy(alloc)?;
            Ok(copy)
        }
        None => {
            let empty = Text::of(alloc, "")?;
            Ok(empty)
        }
    }
}

// Where the first of them lies too far back that does.
fn first_stale(catalog: &Catalog, ids: &[u32], stamp: u64) -> Option<Refusal>
    ensures { option_map refusal_view result
        ≡ first_of (map (machine.stale_refusal (state_of catalog.now).objects stamp) ids.now) }
{
    for id in ids {
        if let Some(Stale { offset, until }) = stale(catalog, *id, stamp) {
            let last_read = until;
            return Some(Refusal::StaleStream { offset, last_read });
        }
    }
    None
}

/// Those of them that are streams, in the order of the text.
pub fn streams_among(alloc: Global, catalog: &Catalog, ids: &[u32]) -> Result<Vec<u32>, AllocError>
    ensures { IfOk result (λ found. found.items
        ≡ streams.streams_among (state_of catalog.now).objects ids.now) }
{
    let mut found = Vec::new(alloc);
    for id in ids {
        if is_stream(catalog, *id) {
            found.push(*id)?;
        }
    }
    Ok(found)
}

fn is_stream(catalog: &Catalog, id: u32) -> bool
    ensures { result ≡ objects.is_kind_at objects.is_stream (state_of catalog.now).objects id }
{
    match catalog.stream(id) {
        Some(_) => true,
        None => false,
    }
}

// The number of another session's transaction that holds the target of a statement, or else the
// first of its streams that one holds.
pub(crate) fn first_locked(sight: &Sight<'_>, target: u32, streams: &[u32]) -> Option<u64>
    ensures { result ≡ holds.first_locked (sessions_of sight.now.sessions.now) sight.now.session
        (target ∷ streams.now) }
{
    if let Some(number) = sight.sessions.locked_by(sight.session, target) {
        return Some(number);
    }
    first_among(sight, streams)
}

fn first_among(sight: &Sight<'_>, ids: &[u32]) -> Option<u64>
    ensures { result ≡ holds.first_locked (sessions_of sight.now.sessions.now) sight.now.session
        ids.now }
{
    for id in ids {
        if let Some(number) = sight.sessions.locked_by(sight.session, *id) {
            return Some(number);
        }
    }
    None
}

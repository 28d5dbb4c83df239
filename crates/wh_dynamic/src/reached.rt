ghost use Rattle.std.specs.Prelude.{◌≡◌, ◌-◌, ◌++◌, length, option_map, IfOk, OnOk};
ghost use Rattle.std.specs.List.{filter};
ghost use Rattle.wh_moment.specs.Upstream as moments;
ghost use Rattle.wh_dynamic.specs.View.{state_of, watched_of, dynamics_in};

use crate::state::DynamicState;
use crate::watched::Watched;
use std::alloc::{AllocError, Global};

/// The dynamic tables that one reads, directly or through others, by rising ids; dropped ones too.
/// `all` are the dynamic tables by their ids from 1.
#[tactic(auto, unfolding(wh_moment::specs::Upstream::upstream))]
pub fn upstream(alloc: Global, all: &[Option<Watched<'_>>], id: u32) -> Result<Vec<u32>, AllocError>
    ensures { IfOk result (λ ids. ids.items ≡ moments.upstream (dynamics_in all.now) id) }
{
    match watched_at(all, id) {
        Some(table) => reached_below(alloc, all, id, table.dynamic.reads()),
        None => Ok(Vec::new(alloc)),
    }
}

/// The dynamic tables that a new one reads, directly or through others, by rising ids: `reads` are
/// the ids that its query reads.
pub fn upstream_of_new(
    alloc: Global,
    all: &[Option<Watched<'_>>],
    reads: &[u32],
) -> Result<Vec<u32>, AllocError>
    ensures { IfOk result (λ ids. ids.items
        ≡ moments.reached_from (dynamics_in all.now) (length all.now) reads.now) }
{
    // No catalog has so many objects.
    if u32::MAX as usize <= all.len() {
        return Err(AllocError);
    }
    reached_below(alloc, all, all.len() as u32 + 1, reads)
}

// Those below an id that are among some ids, or that these read. What a table reads has lower ids,
// so one pass down is enough.
fn reached_below(
    alloc: Global,
    all: &[Option<Watched<'_>>],
    id: u32,
    reads: &[u32],
) -> Result<Vec<u32>, AllocError>
    ensures { IfOk result (λ found. found.items
        ≡ moments.reached_from (dynamics_in all.now) (id - 1) reads.now) }
{
    let mut ids = Vec::new(alloc);
    ids.extend_from_slice(reads)?;
    let mut found = Vec::new(alloc);
    let mut below = id;
    while below > 1 {
        below -= 1;
        reach(all, below, &mut ids, &mut found)?;
    }
    found.reverse();
    Ok(found)
}

// A dynamic table that is among the ids is found, and what it reads is among them too.
fn reach(
    all: &[Option<Watched<'_>>],
    id: u32,
    ids: &mut Vec<u32>,
    found: &mut Vec<u32>,
) -> Result<(), AllocError>
    ensures reads { OnOk result (ids.new.items
        ≡ ids.old.items ++ moments.more_read (dynamics_in all.now) id ids.old.items) }
    ensures found { OnOk result (found.new.items
        ≡ found.old.items ++ moments.if_reached (dynamics_in all.now) id ids.old.items) }
{
    let Some(table) = watched_at(all, id) else {
        return Ok(());
    };
    if ids.contains(&id) {
        ids.extend_from_slice(table.dynamic.reads())?;
        found.push(id)?;
    }
    Ok(())
}

/// What a schedule looks at of the dynamic table of an id, if there is one. `all` are the dynamic
/// tables by their ids from 1.
pub fn watched_at<'a>(all: &[Option<Watched<'a>>], id: u32) -> Option<Watched<'a>>
    ensures { option_map watched_of result ≡ moments.watched_at (dynamics_in all.now) id }
{
    if id == 0 {
        return None;
    }
    match all.get(id as usize - 1) {
        Some(table) => *table,
        None => None,
    }
}

/// The dynamic tables that a refresh of one brings to a moment, by rising ids: itself and those of
/// its upstream that stand for an earlier one.
#[tactic(auto, unfolding(wh_moment::specs::Upstream::brought))]
pub fn brought(
    alloc: Global,
    all: &[Option<Watched<'_>>],
    id: u32,
    target: u64,
) -> Result<Vec<u32>, AllocError>
    ensures { IfOk result (λ ids. ids.items ≡ moments.brought (dynamics_in all.now) id target) }
{
    let mut ids = upstream(alloc, all, id)?;
    ids.push(id)?;
    those_below(alloc, all, &ids, target)
}

fn those_below(
    alloc: Global,
    all: &[Option<Watched<'_>>],
    ids: &[u32],
    target: u64,
) -> Result<Vec<u32>, AllocError>
    ensures { IfOk result (λ below. below.items
        ≡ filter (moments.stands_below (dynamics_in all.now) target) ids.now) }
{
    let mut below = Vec::new(alloc);
    for id in ids {
        if stands_below(all, *id, target) {
            below.push(*id)?;
        }
    }
    Ok(below)
}

fn stands_below(all: &[Option<Watched<'_>>], id: u32, target: u64) -> bool
    ensures { result ≡ moments.stands_below (dynamics_in all.now) target id }
{
    match watched_at(all, id) {
        Some(table) => is_below(table.dynamic.state(), target),
        None => false,
    }
}

// A table that stands for no moment counts as below each.
fn is_below(state: DynamicState, target: u64) -> bool
    ensures { result ≡ moments.is_below target (state_of state) }
{
    state.moment == 0 || state.moment < target
}

//! Waves of a refresh: tables that may be brought at once.
ghost use Rattle.std.specs.Prelude.{◌≡◌, ◌≤◌, length, IfOk, OnOk};
ghost use Rattle.std.specs.List.{list_any};
ghost use Rattle.wh_state.specs.Edits.{is_among};
ghost use Rattle.wh_waves.specs.Waves as rule;
ghost use Rattle.wh_dynamic.specs.View.{dynamics_in};
ghost use Rattle.wh_waves.specs.Waves.{waves_in};

use std::alloc::{AllocError, Global};
use wh_dynamic::{Watched, watched_at};

/// By rising ids, each in the first wave behind those that it reads. `all` are the dynamic tables
/// by their ids from 1.
#[tactic(auto, unfolding(crate::specs::Waves::waves))]
pub fn waves(
    alloc: Global,
    all: &[Option<Watched<'_>>],
    ids: &[u32],
) -> Result<Vec<Vec<u32>>, AllocError>
    ensures { IfOk result (λ waves. waves_in waves.items
        ≡ rule.waves (dynamics_in all.now) ids.now) }
{
    let mut waves = Vec::new(alloc);
    for id in ids {
        put(alloc, all, *id, &mut waves)?;
    }
    Ok(waves)
}

fn put(
    alloc: Global,
    all: &[Option<Watched<'_>>],
    id: u32,
    waves: &mut Vec<Vec<u32>>,
) -> Result<(), AllocError>
    ensures { OnOk result (waves_in waves.new.items ≡ rule.put_behind
        (rule.depth (rule.reads_at (dynamics_in all.now) id) (waves_in waves.old.items)) id
        (waves_in waves.old.items)) }
{
    let behind = depth(sources_at(all, id), waves);
    put_behind(alloc, behind, id, waves)
}

fn sources_at<'a>(all: &[Option<Watched<'a>>], id: u32) -> &'a [u32]
    ensures { result.now ≡ rule.reads_at (dynamics_in all.now) id }
{
    match watched_at(all, id) {
        Some(table) => table.dynamic.reads(),
        None => &[],
    }
}

// How many waves come up to the last one that has one of these.
#[cycle(depth)]
fn depth(sources: &[u32], waves: &[Vec<u32>]) -> usize
    ensures depth { result ≡ rule.depth sources.now (waves_in waves.now) }
    ensures within { result ≤ length waves.now }
{
    let [wave, behind @ ..] = waves else {
        return 0;
    };
    let depth = depth(sources, behind);
    if depth > 0 {
        return depth + 1;
    }
    if has_one(wave, sources) { 1 } else { 0 }
}

fn has_one(wave: &[u32], sources: &[u32]) -> bool
    ensures { result ≡ list_any (λ id. is_among id sources.now) wave.now }
{
    wave.iter().any(|id| sources.contains(id))
}

fn put_behind(
    alloc: Global,
    behind: usize,
    id: u32,
    waves: &mut Vec<Vec<u32>>,
) -> Result<(), AllocError>
    ensures { OnOk result (waves_in waves.new.items
        ≡ rule.put_behind behind id (waves_in waves.old.items)) }
{
    if behind < waves.len() {
        waves[behind].push(id)?;
        return Ok(());
    }
    let mut wave = Vec::new(alloc);
    wave.push(id)?;
    waves.push(wave)?;
    Ok(())
}

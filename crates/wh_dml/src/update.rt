//! UPDATE: the rows on which the condition is TRUE, changed. The parts read the old row.
ghost use Rattle.std.specs.Prelude.{map};
ghost use Rattle.wh_algebra.specs.View.{scalars_of};
ghost use Rattle.wh_dml.specs.Given.{AddsTurn, AddsTurns, Shows};
ghost use Rattle.wh_dml.specs.View.{effect_of, targets_of};
ghost use Rattle.wh_effect.specs.Effect as meaning;
ghost use Rattle.wh_part.specs.View.{numbered_of};
ghost use Rattle.wh_scalar.specs.View.{scalar_of};

use crate::Effect;
use crate::pieces::turned;
use std::alloc::Global;
use std::thread::Threads;
use wh_aggregate::values_on;
use wh_part::{NumberedRow, Partition};
use wh_scalar::{Condition, EvalFault, Scalar};
use wh_workers::Workers;

/// Of many rows several workers take a piece of the partitions each.
pub(crate) fn updated<R: Threads + Sync>(
    workers: &Workers<'_, R>,
    condition: &Condition<'_>,
    parts: &[Scalar],
    target: &[&Partition],
) -> Result<Effect, EvalFault>
    ensures { Shows effect_of result (meaning.turned
        (meaning.updated (scalar_of condition.now) (scalars_of parts.now))
        (targets_of target.now)) }
{
    let alloc = workers.alloc;
    turned(
        workers,
        target,
        &|piece: &[&Partition]| -> Result<Effect, EvalFault>
            ensures { Shows effect_of result (meaning.turned
                (meaning.updated (scalar_of condition.entry.now) (scalars_of parts.entry.now))
                (targets_of piece.now)) }
        { updated_in(alloc, condition, parts, piece) },
    )
}

// What becomes of these partitions' rows.
#[tactic(auto, using(crate::proofs::EffectLaws::partition_fails))]
fn updated_in(
    alloc: Global,
    condition: &Condition<'_>,
    parts: &[Scalar],
    target: &[&Partition],
) -> Result<Effect, EvalFault>
    ensures { Shows effect_of result (meaning.turned
        (meaning.updated (scalar_of condition.now) (scalars_of parts.now))
        (targets_of target.now)) }
{
    let mut effect = Effect::new(alloc);
    for partition in target {
        update(alloc, condition, parts, partition.rows(), &mut effect)?;
    }
    Ok(effect)
}

// Adds what becomes of these rows.
fn update(
    alloc: Global,
    condition: &Condition<'_>,
    parts: &[Scalar],
    rows: &[NumberedRow],
    effect: &mut Effect,
) -> Result<(), EvalFault>
    ensures { AddsTurns result (effect_of effect.old) (effect_of effect.new) (meaning.turned
        (meaning.updated (scalar_of condition.now) (scalars_of parts.now))
        (map numbered_of rows.now)) }
{
    for entry in rows {
        update_row(alloc, condition, parts, entry, effect)?;
    }
    Ok(())
}

fn update_row(
    alloc: Global,
    condition: &Condition<'_>,
    parts: &[Scalar],
    entry: &NumberedRow,
    effect: &mut Effect,
) -> Result<(), EvalFault>
    ensures { AddsTurn result (effect_of effect.old) (effect_of effect.new) entry.now.number
        (meaning.updated (scalar_of condition.now) (scalars_of parts.now) entry.now.row) }
{
    if condition.holds(alloc, &entry.row)? {
        let row = values_on(alloc, parts, &entry.row)?;
        effect.change(entry.number, row)?;
    }
    Ok(())
}

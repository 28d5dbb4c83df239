//! DELETE: the rows on which the condition is TRUE go.
ghost use Rattle.std.specs.Prelude.{map};
ghost use Rattle.wh_dml.specs.Given.{AddsTurn, AddsTurns, Shows};
ghost use Rattle.wh_dml.specs.View.{effect_of, targets_of};
ghost use Rattle.wh_effect.specs.Effect as meaning;
ghost use Rattle.wh_part.specs.View.{numbered_of};
ghost use Rattle.wh_scalar.specs.View.{scalar_of};

use crate::Effect;
use crate::pieces::turned;
use std::alloc::Global;
use std::thread::Threads;
use wh_part::{NumberedRow, Partition};
use wh_scalar::{Condition, EvalFault};
use wh_workers::Workers;

/// Of many rows several workers take a piece of the partitions each.
pub(crate) fn deleted<R: Threads + Sync>(
    workers: &Workers<'_, R>,
    condition: &Condition<'_>,
    target: &[&Partition],
) -> Result<Effect, EvalFault>
    ensures { Shows effect_of result
        (meaning.turned (meaning.deleted (scalar_of condition.now)) (targets_of target.now)) }
{
    let alloc = workers.alloc;
    turned(
        workers,
        target,
        &|piece: &[&Partition]| -> Result<Effect, EvalFault>
            ensures { Shows effect_of result (meaning.turned
                (meaning.deleted (scalar_of condition.entry.now)) (targets_of piece.now)) }
        { deleted_in(alloc, condition, piece) },
    )
}

// What becomes of these partitions' rows.
#[tactic(auto, using(crate::proofs::EffectLaws::partition_fails))]
fn deleted_in(
    alloc: Global,
    condition: &Condition<'_>,
    target: &[&Partition],
) -> Result<Effect, EvalFault>
    ensures { Shows effect_of result
        (meaning.turned (meaning.deleted (scalar_of condition.now)) (targets_of target.now)) }
{
    let mut effect = Effect::new(alloc);
    for partition in target {
        delete(alloc, condition, partition.rows(), &mut effect)?;
    }
    Ok(effect)
}

// Adds what becomes of these rows.
fn delete(
    alloc: Global,
    condition: &Condition<'_>,
    rows: &[NumberedRow],
    effect: &mut Effect,
) -> Result<(), EvalFault>
    ensures { AddsTurns result (effect_of effect.old) (effect_of effect.new) (meaning.turned
        (meaning.deleted (scalar_of condition.now)) (map numbered_of rows.now)) }
{
    for entry in rows {
        delete_row(alloc, condition, entry, effect)?;
    }
    Ok(())
}

fn delete_row(
    alloc: Global,
    condition: &Condition<'_>,
    entry: &NumberedRow,
    effect: &mut Effect,
) -> Result<(), EvalFault>
    ensures { AddsTurn result (effect_of effect.old) (effect_of effect.new) entry.now.number
        (meaning.deleted (scalar_of condition.now) entry.now.row) }
{
    if condition.holds(alloc, &entry.row)? {
        effect.remove(entry.number)?;
    }
    Ok(())
}

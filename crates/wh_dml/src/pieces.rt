//! What becomes of the target's rows, by several workers: a piece of its partitions each.
ghost use Rattle.std.specs.Prelude.{List, Option};
ghost use Rattle.wh_dml.specs.Given.{Shows};
ghost use Rattle.wh_dml.specs.Pieces.{AnswersTurned, AreOn};
ghost use Rattle.wh_dml.specs.View.{effect_of, targets_of};
ghost use Rattle.wh_effect.specs.Effect as meaning;
ghost use Rattle.wh_effect.specs.Effect.{Turn};
ghost use Rattle.wh_frame.specs.Partition as machine;
ghost use Rattle.wh_value.specs.Value as values;
ghost use denote.Ref.{Bor};

use crate::Effect;
use std::alloc::Global;
use std::thread::Threads;
use wh_part::Partition;
use wh_scalar::EvalFault;
use wh_workers::{Workers, map_pieces};

// Fewer rows than these aren't worth a thread.
const FEW: usize = 2_048;

/// What `f` answers of the target. Of many rows several workers take a piece of the partitions
/// each, and the effects are joined in order; the first piece with a fault gives the fault.
pub(crate) fn turned<R: Threads + Sync, F: Fn(&[&Partition]) -> Result<Effect, EvalFault> + Sync>(
    workers: &Workers<'_, R>,
    target: &[&Partition],
    f: &F,
) -> Result<Effect, EvalFault>
    requires { F.IsAlwaysCallable f.now }
    ensures { (meant : values.Row → Option Turn) → AnswersTurned F.Fn f.now meant
        → Shows effect_of result (meaning.turned meant (targets_of target.now)) }
{
    if workers.count == 1 || are_few(target) {
        return f(target);
    }
    let pieces = map_pieces(workers, target, f)?;
    joined(workers.alloc, pieces)
}

/// Whether the partitions have few rows in all.
pub(crate) fn are_few(target: &[&Partition]) -> bool {
    let mut left = FEW;
    for partition in target {
        let count = partition.rows().len();
        if count >= left {
            return false;
        }
        left -= count;
    }
    true
}

// Joins the effects of pieces of a target.
fn joined(alloc: Global, pieces: Vec<Result<Effect, EvalFault>>) -> Result<Effect, EvalFault>
    ensures { (meant : values.Row → Option Turn) (target : List (Bor machine.Partition))
        → AreOn effect_of (meaning.turned meant) target pieces.items
        → Shows effect_of result (meaning.turned meant (targets_of target)) }
{
    let mut effect = Effect::new(alloc);
    for piece in pieces {
        effect.append(piece?)?;
    }
    Ok(effect)
}

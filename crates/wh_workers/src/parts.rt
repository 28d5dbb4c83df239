//! Partitions gone over by several workers.
ghost use Rattle.std.specs.Prelude.{◌≡◌, Some, IfOk};
ghost use Rattle.std.specs.List.{AllZip};
ghost use Rattle.std.specs.Fn.{FnReturnsAt};
ghost use Rattle.std.specs.Arc.{arc_value};
ghost use Rattle.wh_workers.specs.Joined.{joined_of};

use crate::{Workers, map_pieces};
use std::alloc::{AllocError, Global};
use std::sync::Arc;
use std::thread::Threads;
use wh_part::Partition;

/// `f`'s answer of each partition, in the list's order, whatever the worker count.
pub fn map_parts<R: Threads + Sync, T: Send + Drop, F: Fn(&Partition) -> T + Sync>(
    workers: &Workers<'_, R>,
    parts: &[Arc<Partition>],
    f: &F,
) -> Result<Vec<T>, AllocError>
    requires { F.IsAlwaysCallable f.now }
    ensures { IfOk result (λ answers. AllZip
        (λ part answer. FnReturnsAt F.Fn f.now (arc_value part) answer) parts.now answers.items) }
{
    let alloc = workers.alloc;
    if workers.count == 1 || parts.len() < 2 {
        return in_turn(alloc, parts, f);
    }
    let pieces = map_pieces(
        workers,
        parts,
        &|piece: &[Arc<Partition>]| -> Result<Vec<T>, AllocError>
            requires { F.IsAlwaysCallable f.now }
            ensures { IfOk result (λ answers. AllZip
                (λ part answer. FnReturnsAt F.Fn f.entry.now (arc_value part) answer)
                piece.now answers.items) }
        { in_turn(alloc, piece, f) },
    )?;
    joined(alloc, pieces)
}

// `f`'s answer of each partition, one after the other.
fn in_turn<T: Drop, F: Fn(&Partition) -> T>(
    alloc: Global,
    parts: &[Arc<Partition>],
    f: &F,
) -> Result<Vec<T>, AllocError>
    requires { F.IsAlwaysCallable f.now }
    ensures { IfOk result (λ answers. AllZip
        (λ part answer. FnReturnsAt F.Fn f.now (arc_value part) answer) parts.now answers.items) }
{
    let mut answers = Vec::with_capacity(alloc, parts.len())?;
    for part in parts {
        answers.push(f(part))?;
    }
    Ok(answers)
}

// The answers of all pieces, in order.
fn joined<T: Drop>(
    alloc: Global,
    pieces: Vec<Result<Vec<T>, AllocError>>,
) -> Result<Vec<T>, AllocError>
    ensures { IfOk result (λ answers. joined_of pieces.items ≡ Some answers.items) }
{
    let mut answers = Vec::new(alloc);
    for piece in pieces {
        let mut more = piece?;
        answers.append(&mut more)?;
    }
    Ok(answers)
}

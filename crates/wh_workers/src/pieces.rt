//! A list cut into pieces for several workers.
ghost use Rattle.std.specs.Prelude.{IfOk};
ghost use Rattle.std.specs.Fn.{FnReturnsAt};
ghost use Rattle.wh_workers.specs.Pieces.{PiecesOf};

use crate::Workers;
use std::alloc::AllocError;
use std::thread;
use std::thread::Threads;

/// What `f` answers of pieces of consecutive items, of which there are at most as many as workers,
/// in the list's order.
pub fn map_pieces<R: Threads + Sync, X: Sync, T: Send + Drop, F: Fn(&[X]) -> T + Sync>(
    workers: &Workers<'_, R>,
    items: &[X],
    f: &F,
) -> Result<Vec<T>, AllocError>
    requires { F.IsAlwaysCallable f.now }
    ensures { IfOk result (λ answers. PiecesOf workers.now.count items.now
        (λ piece answer. FnReturnsAt F.Fn f.now piece answer) answers.items) }
{
    let alloc = workers.alloc;
    if workers.count == 1 || items.len() < 2 {
        let mut answers = Vec::with_capacity(alloc, 1)?;
        answers.push(f(items))?;
        return Ok(answers);
    }
    let size = items.len().div_ceil(workers.count as usize);
    thread::map_chunks(
        workers.rt,
        alloc,
        items,
        size,
        &|_: usize, piece: &[X]| -> T
            requires { F.IsAlwaysCallable f.now }
            ensures { FnReturnsAt F.Fn f.entry.now piece.now result }
        { f(piece) },
    )
}

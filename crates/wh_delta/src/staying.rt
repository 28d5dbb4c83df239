//! Rows less those that go.
ghost use Rattle.std.specs.Prelude.{◌≡◌, [], ◌∷◌, ◌++◌, IfOk, OnOk};
ghost use Rattle.wh_meaning.specs.Bag.{bag_of, with_row};
ghost use Rattle.wh_meaning.specs.BagChange.{IsNet};
ghost use Rattle.wh_algebra.specs.Tuple.{rows_in};
ghost use Rattle.wh_maintenance.specs.Turn.{less};
ghost use Rattle.wh_delta.specs.Walk.{Stays};

use crate::moves::Moves;
use std::alloc::{AllocError, Global};
use wh_algebra::Tuple;
use wh_bag::Bag;
use wh_exec::collected;
use wh_value::Row;

/// The net of a change: no row both comes and goes.
pub(crate) fn netted(alloc: Global, moves: Moves) -> Result<Moves, AllocError>
    ensures { IfOk result (λ net. IsNet (bag_of moves.goes.items)
        (bag_of moves.comes.items) (bag_of net.comes.items) (bag_of net.goes.items)) }
{
    let came = counted(alloc, &moves.comes)?;
    let gone = counted(alloc, &moves.goes)?;
    let comes = leave(alloc, moves.comes, &gone)?;
    let goes = leave(alloc, moves.goes, &came)?;
    Ok(Moves { comes, goes })
}

/// The rows less those that go, as often as they go.
pub(crate) fn staying(alloc: Global, rows: Vec<Row>, goes: &[Row]) -> Result<Vec<Row>, AllocError>
    ensures { IfOk result
        (λ kept. bag_of kept.items ≡ less (bag_of rows.items) (bag_of goes.now)) }
{
    let goes = counted(alloc, goes)?;
    leave(alloc, rows, &goes)
}

fn leave(alloc: Global, rows: Vec<Row>, goes: &Bag) -> Result<Vec<Row>, AllocError>
    ensures { IfOk result
        (λ kept. bag_of kept.items ≡ less (bag_of rows.items) goes.now) }
{
    let mut met = Bag::new(alloc);
    let mut kept = Vec::new(alloc);
    for row in rows {
        leave_one(goes, row, &mut met, &mut kept)?;
    }
    Ok(kept)
}

// One more row seen: it goes where as many of it as go weren't met yet.
fn leave_one(goes: &Bag, row: Row, met: &mut Bag, kept: &mut Vec<Row>) -> Result<(), AllocError>
    ensures { (seen : _) → Stays goes.now seen kept.old.items met.old
        → OnOk result (Stays goes.now (seen ++ row ∷ []) kept.new.items met.new) }
{
    if met.count(&row) < goes.count(&row) {
        return note(met, row);
    }
    kept.push(row)?;
    Ok(())
}

fn note(bag: &mut Bag, row: Row) -> Result<(), AllocError>
    ensures { OnOk result (bag.new ≡ with_row row bag.old) }
{
    // No list is so long that a count of it passes 64 bits.
    bag.add(row, 1).map_err(|_| AllocError)
}

/// The bag of rows.
pub(crate) fn counted(alloc: Global, rows: &[Row]) -> Result<Bag, AllocError>
    ensures { IfOk result (λ bag. bag ≡ bag_of rows.now) }
{
    collected(alloc, lent(alloc, rows)?)
}

// The same rows, where they stand.
fn lent<'a>(alloc: Global, rows: &'a [Row]) -> Result<Vec<Tuple<'a>>, AllocError>
    ensures { IfOk result (λ tuples. rows_in tuples.items ≡ rows.now) }
{
    let mut tuples = Vec::with_capacity(alloc, rows.len())?;
    for row in rows {
        tuples.push(Tuple::Kept(row))?;
    }
    Ok(tuples)
}

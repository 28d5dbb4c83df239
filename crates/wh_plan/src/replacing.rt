//! A scalar with others in place of its columns.
ghost use Rattle.std.specs.Prelude.{◌≡◌, ◌-◌, IfOk};
ghost use Rattle.wh_meaning.specs.Scalar as meaning;
ghost use Rattle.wh_scalar.specs.View.{scalar_of};
ghost use Rattle.wh_algebra.specs.View.{scalars_of};
ghost use Rattle.wh_moves.specs.Moved as moves;
ghost use Rattle.wh_value.specs.Value.{Null};
ghost use Rattle.wh_plan.specs.Replacement.{placed};

use sqlite_items::Boxed;
use std::alloc::{AllocError, Global};
use wh_scalar::Scalar;
use wh_value::Value;

/// What takes the place of a column.
#[derive(Clone, Copy)]
pub(crate) enum Replacement<'a> {
    /// The item at its place, or NULL where there is none.
    Items(&'a [Scalar]),
    /// The column that stands so many places before it, or the first one.
    Before(usize),
}

/// The scalar with the replacements in place of its columns.
#[cycle(put)]
#[tactic(auto, unfolding(wh_moves::specs::Moved::put_in))]
pub(crate) fn put_in(
    scalar: &Scalar,
    alloc: Global,
    into: &Replacement<'_>,
) -> Result<Scalar, AllocError>
    ensures { IfOk result (λ put. scalar_of put
        ≡ moves.put_in (placed into.now) (scalar_of scalar.now)) }
{
    match scalar {
        Scalar::Const(value) => Ok(Scalar::Const(value.copy(alloc)?)),
        Scalar::Column(place) => replaced(alloc, into, *place),
        Scalar::Neg(x) => Ok(Scalar::Neg(boxed(x, alloc, into)?)),
        Scalar::Add(x, y) => {
            let (x, y) = beside(y, alloc, into, boxed(x, alloc, into)?)?;
            Ok(Scalar::Add(x, y))
        }
        Scalar::Sub(x, y) => {
            let (x, y) = beside(y, alloc, into, boxed(x, alloc, into)?)?;
            Ok(Scalar::Sub(x, y))
        }
        Scalar::Mul(x, y) => {
            let (x, y) = beside(y, alloc, into, boxed(x, alloc, into)?)?;
            Ok(Scalar::Mul(x, y))
        }
        Scalar::Compare(comparison, x, y) => {
            let (x, y) = beside(y, alloc, into, boxed(x, alloc, into)?)?;
            Ok(Scalar::Compare(*comparison, x, y))
        }
        Scalar::And(x, y) => {
            let (x, y) = beside(y, alloc, into, boxed(x, alloc, into)?)?;
            Ok(Scalar::And(x, y))
        }
        Scalar::Or(x, y) => {
            let (x, y) = beside(y, alloc, into, boxed(x, alloc, into)?)?;
            Ok(Scalar::Or(x, y))
        }
        Scalar::Not(x) => Ok(Scalar::Not(boxed(x, alloc, into)?)),
        Scalar::IsNull(x) => Ok(Scalar::IsNull(boxed(x, alloc, into)?)),
    }
}

#[cycle(put)]
fn boxed(
    part: &Boxed<Scalar>,
    alloc: Global,
    into: &Replacement<'_>,
) -> Result<Boxed<Scalar>, AllocError>
    ensures { IfOk result (λ put. scalar_of put
        ≡ moves.put_in (placed into.now) (scalar_of part.now)) }
{
    Boxed::new(alloc, put_in(part.get(), alloc, into)?)
}

// A second side, beside the first one.
#[cycle(put)]
fn beside(
    y: &Boxed<Scalar>,
    alloc: Global,
    into: &Replacement<'_>,
    x: Boxed<Scalar>,
) -> Result<(Boxed<Scalar>, Boxed<Scalar>), AllocError>
    ensures first { IfOk result (λ both. scalar_of both.0 ≡ scalar_of x) }
    ensures second { IfOk result (λ both. scalar_of both.1
        ≡ moves.put_in (placed into.now) (scalar_of y.now)) }
{
    let y = boxed(y, alloc, into)?;
    Ok((x, y))
}

/// What takes the place of the column at a place.
fn replaced(alloc: Global, into: &Replacement<'_>, place: u32) -> Result<Scalar, AllocError>
    ensures { IfOk result (λ scalar. scalar_of scalar ≡ placed into.now place) }
{
    match into {
        Replacement::Items(items) => item_at(alloc, items, place),
        Replacement::Before(width) => Ok(column_before(place, *width)),
    }
}

fn item_at(alloc: Global, items: &[Scalar], place: u32) -> Result<Scalar, AllocError>
    ensures { IfOk result (λ item. scalar_of item ≡ moves.item_at (scalars_of items.now) place) }
{
    match items.get(place as usize) {
        Some(item) => item.copy(alloc),
        None => Ok(null()),
    }
}

fn column_before(place: u32, width: usize) -> Scalar
    ensures { scalar_of result ≡ meaning.Column (place - width) }
{
    Scalar::Column((place as usize).saturating_sub(width) as u32)
}

fn null() -> Scalar
    ensures { scalar_of result ≡ meaning.Const Null }
{
    Scalar::Const(Value::Null)
}

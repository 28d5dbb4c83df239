ghost use Rattle.std.specs.Prelude.{◌≡◌, map, option_map, IfOk};
ghost use Rattle.wh_naming.specs.Grouping.{regrouped};
ghost use Rattle.wh_regroup.specs.Regrouping.{with_part, with_sides};
ghost use Rattle.wh_scalar.specs.View.{scalar_of};

use crate::keys::{call_column, column, key_of};
use sqlite_items::Boxed;
use std::alloc::{AllocError, Global};
use wh_scalar::Scalar;

/// The scalar over the rows of groups; None where a column stands outside of keys and calls.
/// Each outermost part that is a key is the key's column, and a call is a column behind the keys.
#[tactic(auto, unfolding(wh_naming::specs::Grouping::regrouped), using(crate::proofs::KeyLemmas::key_first))]
pub fn regrouped(
    alloc: Global,
    keys: &[Scalar],
    width: usize,
    scalar: &Scalar,
) -> Result<Option<Scalar>, AllocError>
    ensures { IfOk result (λ found. option_map scalar_of found
        ≡ regrouped (map scalar_of keys.now) width (scalar_of scalar.now)) }
{
    if let Some(place) = key_of(keys, scalar) {
        return Ok(Some(column(place)?));
    }
    match scalar {
        Scalar::Const(value) => Ok(Some(Scalar::Const(value.copy(alloc)?))),
        Scalar::Column(place) => call_column(keys.len(), width, *place),
        Scalar::Neg(x) | Scalar::Not(x) | Scalar::IsNull(x) => {
            let Some(part) = regrouped(alloc, keys, width, x.get())? else {
                return Ok(None);
            };
            Ok(Some(with_part(scalar, Boxed::new(alloc, part)?)))
        }
        Scalar::Add(x, y)
        | Scalar::Sub(x, y)
        | Scalar::Mul(x, y)
        | Scalar::Compare(_, x, y)
        | Scalar::And(x, y)
        | Scalar::Or(x, y) => {
            let Some(left) = regrouped(alloc, keys, width, x.get())? else {
                return Ok(None);
            };
            let left = Boxed::new(alloc, left)?;
            let Some(right) = regrouped(alloc, keys, width, y.get())? else {
                return Ok(None);
            };
            Ok(Some(with_sides(scalar, left, Boxed::new(alloc, right)?)))
        }
    }
}

// The operator of a scalar of one part, over this part.
fn with_part(scalar: &Scalar, part: Boxed<Scalar>) -> Scalar
    ensures { scalar_of result ≡ with_part (scalar_of scalar.now) (scalar_of part) }
{
    match scalar {
        Scalar::Neg(_) => Scalar::Neg(part),
        Scalar::Not(_) => Scalar::Not(part),
        _ => Scalar::IsNull(part),
    }
}

// The operator of a scalar of two sides, over these sides.
fn with_sides(scalar: &Scalar, left: Boxed<Scalar>, right: Boxed<Scalar>) -> Scalar
    ensures { scalar_of result
        ≡ with_sides (scalar_of scalar.now) (scalar_of left) (scalar_of right) }
{
    match scalar {
        Scalar::Add(..) => Scalar::Add(left, right),
        Scalar::Sub(..) => Scalar::Sub(left, right),
        Scalar::Mul(..) => Scalar::Mul(left, right),
        Scalar::Compare(comparison, ..) => Scalar::Compare(*comparison, left, right),
        Scalar::And(..) => Scalar::And(left, right),
        _ => Scalar::Or(left, right),
    }
}

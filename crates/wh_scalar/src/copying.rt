use crate::Scalar;
use sqlite_items::Boxed;
use std::alloc::{AllocError, Global};

impl Scalar {
    ghost use Rattle.std.specs.Prelude.{◌≡◌, IfOk};
    ghost use Rattle.wh_scalar.specs.View.{scalar_of};

    /// An equal scalar, with memory of its own.
    #[cycle(copy)]
    pub fn copy(&self, alloc: Global) -> Result<Scalar, AllocError>
        ensures { IfOk result (λ copy. scalar_of copy ≡ scalar_of self.now) }
    {
        match self {
            Scalar::Const(value) => Ok(Scalar::Const(value.copy(alloc)?)),
            Scalar::Column(place) => Ok(Scalar::Column(*place)),
            Scalar::Neg(x) => Ok(Scalar::Neg(boxed(alloc, x)?)),
            Scalar::Add(x, y) => {
                let (x, y) = beside(alloc, y, boxed(alloc, x)?)?;
                Ok(Scalar::Add(x, y))
            }
            Scalar::Sub(x, y) => {
                let (x, y) = beside(alloc, y, boxed(alloc, x)?)?;
                Ok(Scalar::Sub(x, y))
            }
            Scalar::Mul(x, y) => {
                let (x, y) = beside(alloc, y, boxed(alloc, x)?)?;
                Ok(Scalar::Mul(x, y))
            }
            Scalar::Compare(comparison, x, y) => {
                let (x, y) = beside(alloc, y, boxed(alloc, x)?)?;
                Ok(Scalar::Compare(*comparison, x, y))
            }
            Scalar::And(x, y) => {
                let (x, y) = beside(alloc, y, boxed(alloc, x)?)?;
                Ok(Scalar::And(x, y))
            }
            Scalar::Or(x, y) => {
                let (x, y) = beside(alloc, y, boxed(alloc, x)?)?;
                Ok(Scalar::Or(x, y))
            }
            Scalar::Not(x) => Ok(Scalar::Not(boxed(alloc, x)?)),
            Scalar::IsNull(x) => Ok(Scalar::IsNull(boxed(alloc, x)?)),
        }
    }
}

ghost use Rattle.std.specs.Prelude.{◌≡◌, IfOk};
ghost use Rattle.wh_scalar.specs.View.{scalar_of};

#[cycle(copy)]
fn boxed(alloc: Global, part: &Boxed<Scalar>) -> Result<Boxed<Scalar>, AllocError>
    ensures { IfOk result (λ copy. scalar_of copy ≡ scalar_of part.now) }
{
    Boxed::new(alloc, part.get().copy(alloc)?)
}

// A copy of a second side, beside the first one's.
#[cycle(copy)]
fn beside(
    alloc: Global,
    y: &Boxed<Scalar>,
    x: Boxed<Scalar>,
) -> Result<(Boxed<Scalar>, Boxed<Scalar>), AllocError>
    ensures first { IfOk result (λ both. scalar_of both.0 ≡ scalar_of x) }
    ensures second { IfOk result (λ both. scalar_of both.1 ≡ scalar_of y.now) }
{
    let y = boxed(alloc, y)?;
    Ok((x, y))
}

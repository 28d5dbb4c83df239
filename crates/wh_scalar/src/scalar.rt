use sqlite_items::Boxed;
use wh_value::{Comparison, Value};

/// An expression over the columns of a row, by their places from 0.
#[cycle(scalar)]
#[derive(Debug, Drop)]
pub enum Scalar {
    Const(Value),
    Column(u32),
    Neg(Boxed<Scalar>),
    Add(Boxed<Scalar>, Boxed<Scalar>),
    Sub(Boxed<Scalar>, Boxed<Scalar>),
    Mul(Boxed<Scalar>, Boxed<Scalar>),
    Compare(Comparison, Boxed<Scalar>, Boxed<Scalar>),
    And(Boxed<Scalar>, Boxed<Scalar>),
    Or(Boxed<Scalar>, Boxed<Scalar>),
    Not(Boxed<Scalar>),
    IsNull(Boxed<Scalar>),
}

impl Scalar {
    ghost use Rattle.std.specs.Prelude.{◌≡◌};
    ghost use Rattle.wh_meaning.specs.Scalar.{has_arithmetic};
    ghost use Rattle.wh_scalar.specs.View.{scalar_of};

    /// Whether arithmetic stands in it.
    #[tactic(auto, unfolding(wh_meaning::specs::Scalar::has_arithmetic))]
    pub fn has_arithmetic(&self) -> bool
        ensures { result ≡ has_arithmetic (scalar_of self.now) }
    {
        match self {
            Scalar::Const(_) | Scalar::Column(_) => false,
            Scalar::Neg(_) | Scalar::Add(..) | Scalar::Sub(..) | Scalar::Mul(..) => true,
            Scalar::Compare(_, x, y) | Scalar::And(x, y) | Scalar::Or(x, y) => {
                x.get().has_arithmetic() || y.get().has_arithmetic()
            }
            Scalar::Not(x) | Scalar::IsNull(x) => x.get().has_arithmetic(),
        }
    }
}

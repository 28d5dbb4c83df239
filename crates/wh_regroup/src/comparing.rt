ghost use Rattle.std.specs.Prelude.{◌≡◌};
ghost use Rattle.wh_naming.specs.Grouping.{is_same, same_comparison};
ghost use Rattle.wh_scalar.specs.View.{scalar_of};

use wh_scalar::Scalar;
use wh_value::Comparison;

/// Whether two scalars are the same.
#[tactic(auto, unfolding(wh_naming::specs::Grouping::is_same))]
pub fn is_same(a: &Scalar, b: &Scalar) -> bool
    ensures { result ≡ is_same (scalar_of a.now) (scalar_of b.now) }
{
    match (a, b) {
        (Scalar::Const(v), Scalar::Const(w)) => v.cmp(w).is_eq(),
        (Scalar::Column(p), Scalar::Column(q)) => *p == *q,
        (Scalar::Neg(a), Scalar::Neg(b)) => is_same(a.get(), b.get()),
        (Scalar::Add(a, b), Scalar::Add(c, d)) => {
            is_same(a.get(), c.get()) && is_same(b.get(), d.get())
        }
        (Scalar::Sub(a, b), Scalar::Sub(c, d)) => {
            is_same(a.get(), c.get()) && is_same(b.get(), d.get())
        }
        (Scalar::Mul(a, b), Scalar::Mul(c, d)) => {
            is_same(a.get(), c.get()) && is_same(b.get(), d.get())
        }
        (Scalar::Compare(o, a, b), Scalar::Compare(p, c, d)) => {
            same_comparison(*o, *p) && is_same(a.get(), c.get()) && is_same(b.get(), d.get())
        }
        (Scalar::And(a, b), Scalar::And(c, d)) => {
            is_same(a.get(), c.get()) && is_same(b.get(), d.get())
        }
        (Scalar::Or(a, b), Scalar::Or(c, d)) => {
            is_same(a.get(), c.get()) && is_same(b.get(), d.get())
        }
        (Scalar::Not(a), Scalar::Not(b)) => is_same(a.get(), b.get()),
        (Scalar::IsNull(a), Scalar::IsNull(b)) => is_same(a.get(), b.get()),
        _ => false,
    }
}

fn same_comparison(a: Comparison, b: Comparison) -> bool
    ensures { result ≡ same_comparison a b }
{
    a == b
}

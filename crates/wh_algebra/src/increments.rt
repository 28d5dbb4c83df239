ghost use Rattle.std.specs.Prelude.{◌≡◌};
ghost use Rattle.wh_algebra.specs.View.{query_of};
ghost use Rattle.wh_algebra.specs.Increments as increments;

use crate::Query;

/// Whether changes of the sources can be carried through the query: each Group has a key, and no
/// condition of a Join holds arithmetic.
#[tactic(auto, unfolding(crate::specs::Increments::incrementable))]
pub fn incrementable(query: &Query) -> bool
    ensures { result ≡ increments.incrementable (query_of query.now) }
{
    match query {
        Query::Scan(_) => true,
        Query::Filter(input, _) | Query::Project(input, _) => incrementable(input.get()),
        Query::Join(left, right, on) => {
            !on.has_arithmetic() && incrementable(left.get()) && incrementable(right.get())
        }
        Query::UnionAll(left, right) => incrementable(left.get()) && incrementable(right.get()),
        Query::Group(input, by, _) => by.len() > 0 && incrementable(input.get()),
    }
}

//! Queries of which groups may be kept.
ghost use Rattle.std.specs.Prelude.{◌≡◌, option_map};
ghost use Rattle.wh_meaning.specs.Query.{Group};
ghost use Rattle.wh_algebra.specs.View.{query_of, scalars_of, calls_of};
ghost use Rattle.wh_maintenance.specs.Above.{grouping};
ghost use Rattle.wh_maintenance.specs.Delta.{linear};
ghost use Rattle.wh_group.specs.Grouping.{grouping_in};

use wh_algebra::{Call, Query};
use wh_scalar::Scalar;

/// A Group over a linear query.
#[derive(Clone, Copy)]
pub struct Grouping<'a> {
    pub below: &'a Query,
    pub by: &'a [Scalar],
    pub calls: &'a [Call],
}

/// The Group of a query that is one Group over a linear query, with any number of Filter and
/// Project above; None where it is no such query.
#[tactic(auto, unfolding(wh_maintenance::specs::Above::grouping))]
pub fn grouping_of(query: &Query) -> Option<Grouping<'_>>
    ensures { option_map grouping_in result ≡ grouping (query_of query.now) }
{
    match query {
        Query::Filter(input, _) | Query::Project(input, _) => grouping_of(input.get()),
        Query::Scan(_) | Query::Join(_, _, _) | Query::UnionAll(_, _) => None,
        Query::Group(input, by, calls) => grouped_over(
            input.get(),
            by.as_slice(),
            calls.as_slice(),
        ),
    }
}

#[tactic(auto, unfolding(wh_maintenance::specs::Above::grouping))]
fn grouped_over<'a>(below: &'a Query, by: &'a [Scalar], calls: &'a [Call]) -> Option<Grouping<'a>>
    ensures { option_map grouping_in result
        ≡ grouping (Group (query_of below.now) (scalars_of by.now) (calls_of calls.now)) }
{
    if !is_linear(below) {
        return None;
    }
    Some(Grouping { below, by, calls })
}

/// Whether the query has no operators but Scan, Filter, Project and UnionAll, so that the rows that
/// stay count for nothing.
#[tactic(auto, unfolding(wh_maintenance::specs::Delta::linear))]
pub fn is_linear(query: &Query) -> bool
    ensures { result ≡ linear (query_of query.now) }
{
    match query {
        Query::Scan(_) => true,
        Query::Filter(input, _) | Query::Project(input, _) => is_linear(input.get()),
        Query::Join(_, _, _) | Query::Group(_, _, _) => false,
        Query::UnionAll(left, right) => is_linear(left.get()) && is_linear(right.get()),
    }
}

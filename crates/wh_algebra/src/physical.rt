ghost use Rattle.std.specs.Prelude.{◌≡◌};
ghost use Rattle.wh_meaning.specs.Query as meaning;
ghost use Rattle.wh_scalar.specs.View.{scalar_of};
ghost use Rattle.wh_algebra.specs.View.{scalars_of, calls_of};
ghost use Rattle.wh_algebra.specs.Plan.{plan_of, operator_of};

use crate::Call;
use sqlite_items::{Boxed, Items};
use wh_scalar::Scalar;

/// A plan: how a query is carried out. Contracts see it as the query that it stands for.
#[cycle(plan)]
#[derive(Debug, Drop)]
pub struct Physical {
    step: Step,
}

#[cycle(plan)]
#[derive(Debug, Drop)]
enum Step {
    Scan(u32),
    Filter(Boxed<Physical>, Scalar),
    Project(Boxed<Physical>, Items<Scalar>),
    Join(Boxed<Physical>, Boxed<Physical>, Scalar),
    UnionAll(Boxed<Physical>, Boxed<Physical>),
    Group(Boxed<Physical>, Items<Scalar>, Items<Call>),
}

/// The last operator of a plan, with its parts.
#[derive(Debug, Drop)]
pub enum Operator<'a> {
    /// The number of the source.
    Scan(u32),
    Filter(&'a Physical, &'a Scalar),
    Project(&'a Physical, &'a [Scalar]),
    /// The scalar sees the left row's columns and then the right one's. Each pair is tried.
    Join(&'a Physical, &'a Physical, &'a Scalar),
    UnionAll(&'a Physical, &'a Physical),
    /// A row for each distinct key: the keys, and then the calls.
    Group(&'a Physical, &'a [Scalar], &'a [Call]),
}

impl Physical {
    /// The last operator, and its parts.
    pub fn operator(&self) -> Operator<'_>
        ensures { operator_of result ≡ plan_of self.now }
    {
        match &self.step {
            Step::Scan(source) => Operator::Scan(*source),
            Step::Filter(input, condition) => Operator::Filter(input.get(), condition),
            Step::Project(input, items) => Operator::Project(input.get(), items.as_slice()),
            Step::Join(left, right, on) => Operator::Join(left.get(), right.get(), on),
            Step::UnionAll(left, right) => Operator::UnionAll(left.get(), right.get()),
            Step::Group(input, by, calls) => {
                Operator::Group(input.get(), by.as_slice(), calls.as_slice())
            }
        }
    }

    pub fn scan(source: u32) -> Physical
        ensures { plan_of result ≡ meaning.Scan source }
    {
        Physical {
            step: Step::Scan(source),
        }
    }

    pub fn filter(input: Boxed<Physical>, condition: Scalar) -> Physical
        ensures { plan_of result ≡ meaning.Filter (plan_of input) (scalar_of condition) }
    {
        Physical {
            step: Step::Filter(input, condition),
        }
    }

    pub fn project(input: Boxed<Physical>, items: Items<Scalar>) -> Physical
        ensures { plan_of result ≡ meaning.Project (plan_of input) (scalars_of items) }
    {
        Physical {
            step: Step::Project(input, items),
        }
    }

    /// A join of two, with rows that meet its condition side by side.
    pub fn join(left: Boxed<Physical>, right: Boxed<Physical>, on: Scalar) -> Physical
        ensures { plan_of result ≡ meaning.Join (plan_of left) (plan_of right) (scalar_of on) }
    {
        Physical {
            step: Step::Join(left, right, on),
        }
    }

    pub fn union_all(left: Boxed<Physical>, right: Boxed<Physical>) -> Physical
        ensures { plan_of result ≡ meaning.UnionAll (plan_of left) (plan_of right) }
    {
        Physical {
            step: Step::UnionAll(left, right),
        }
    }

    pub fn group(input: Boxed<Physical>, by: Items<Scalar>, calls: Items<Call>) -> Physical
        ensures { plan_of result
            ≡ meaning.Group (plan_of input) (scalars_of by) (calls_of calls) }
    {
        Physical {
            step: Step::Group(input, by, calls),
        }
    }
}

use sqlite_items::{Boxed, Items};
use wh_scalar::Scalar;

/// A call over the rows of a group.
#[derive(Debug, Drop)]
pub enum Call {
    Sum(Scalar),
    CountRows,
    Count(Scalar),
}

/// A query over numbered sources.
#[cycle(query)]
#[derive(Debug, Drop)]
pub enum Query {
    /// The number of the source.
    Scan(u32),
    Filter(Boxed<Query>, Scalar),
    Project(Boxed<Query>, Items<Scalar>),
    /// The scalar sees the left row's columns and then the right one's.
    Join(Boxed<Query>, Boxed<Query>, Scalar),
    UnionAll(Boxed<Query>, Boxed<Query>),
    /// A row for each distinct key: the keys, and then the calls.
    Group(Boxed<Query>, Items<Scalar>, Items<Call>),
}

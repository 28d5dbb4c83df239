use crate::Output;
use wh_algebra::Query;
use wh_expr_bind::{Entry, Findings};
use wh_scalar::Scalar;

/// A query with its output columns, the ids of its sources in the order of the text, and what is
/// found wrong.
#[derive(Debug, Drop)]
pub struct BoundQuery {
    pub query: Query,
    pub outputs: Vec<Output>,
    pub sources: Vec<u32>,
    pub findings: Findings,
    /// Whether it, or a query in it, has more columns than the limit.
    pub is_wide: bool,
}

/// The rows of the FROM entries so far.
#[derive(Debug, Drop)]
pub struct Joined {
    pub query: Query,
    pub entries: Vec<Entry>,
    pub sources: Vec<u32>,
    pub findings: Findings,
    pub is_wide: bool,
}

/// A condition, and what is found wrong in it.
#[derive(Debug, Drop)]
pub struct BoundCondition {
    pub scalar: Scalar,
    pub findings: Findings,
}

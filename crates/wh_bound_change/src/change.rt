use wh_algebra::Query;
use wh_scalar::Scalar;

/// What becomes of the target's rows.
#[derive(Debug, Drop)]
pub enum Modification {
    /// The new rows.
    InsertRows(Vec<Vec<Scalar>>),
    /// A query, and the new row for each of its rows.
    InsertQuery(Query, Vec<Scalar>),
    /// The condition, and the changed row, over a row of the target.
    Update(Scalar, Vec<Scalar>),
    /// The condition over a row of the target.
    Delete(Scalar),
    /// The source, ON over a row of the target and one of the source, and the clauses.
    Merge(Query, Scalar, Vec<BoundClause>),
}

/// A clause of MERGE. After MATCHED it sees a row of the target and then one of the source, after
/// NOT MATCHED one of the source.
#[derive(Debug, Drop)]
pub enum BoundClause {
    /// The condition, and the changed row.
    UpdateMatched(Scalar, Vec<Scalar>),
    DeleteMatched(Scalar),
    /// The condition, and the new row.
    InsertUnmatched(Scalar, Vec<Scalar>),
}

/// A change of a table's rows over numbered sources.
#[derive(Debug, Drop)]
pub struct BoundChange {
    /// The id of the table.
    pub target: u32,
    pub change: Modification,
    /// The ids of the sources, by their numbers.
    pub sources: Vec<u32>,
    /// Whether a query in it has more columns than the limit.
    pub is_wide: bool,
}

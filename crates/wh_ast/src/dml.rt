use crate::{Expr, FromItem, Query};
use sqlite_items::Items;
use wh_value::Text;

/// A statement that changes rows.
#[derive(Debug, Drop)]
pub enum Dml {
    /// The table, the columns if they are written, and the rows.
    Insert(Text, Option<Items<Text>>, Rows),
    Update(Text, Items<Assignment>, Option<Expr>),
    Delete(Text, Option<Expr>),
    /// The target, its alias if there is one, the source, ON, and the clauses.
    Merge(Text, Option<Text>, FromItem, Expr, Items<MergeClause>),
}

/// What INSERT adds.
#[derive(Debug, Drop)]
pub enum Rows {
    Values(Items<Items<Expr>>),
    Query(Query),
}

#[derive(Debug, Drop)]
pub struct Assignment {
    pub column: Text,
    pub value: Expr,
}

/// WHEN with its condition, if there is one.
#[derive(Debug, Drop)]
pub enum MergeClause {
    Update(Option<Expr>, Items<Assignment>),
    Delete(Option<Expr>),
    /// The columns if they are written, and the values.
    Insert(Option<Expr>, Option<Items<Text>>, Items<Expr>),
}

use crate::Expr;
use sqlite_items::{Boxed, Items};
use wh_value::Text;

/// One core or more, with UNION ALL between them.
#[cycle(query)]
#[derive(Debug, Drop)]
pub struct Query {
    pub cores: Items<Core>,
}

/// `SELECT items FROM source joins [WHERE filter] [GROUP BY group]`.
#[cycle(query)]
#[derive(Debug, Drop)]
pub struct Core {
    pub items: Items<Item>,
    pub from: FromItem,
    pub joins: Items<Join>,
    pub filter: Option<Expr>,
    pub group: Items<Expr>,
}

#[derive(Debug, Drop)]
pub enum Item {
    /// `*`
    Star,
    /// `entry.*`
    StarOf(Text),
    /// An expression, and its alias if it has one.
    Expr(Expr, Option<Text>),
}

#[cycle(query)]
#[derive(Debug, Drop)]
pub enum FromItem {
    /// An object's name, and the alias if there is one.
    Named(Text, Option<Text>),
    Subquery(Boxed<Query>, Text),
}

#[cycle(query)]
#[derive(Debug, Drop)]
pub struct Join {
    pub source: FromItem,
    pub on: Expr,
}

/// What ORDER BY names.
#[derive(Debug, Drop)]
pub enum OrderKey {
    Name(Text),
    Position(u64),
}

#[derive(Debug, Drop)]
pub struct Sort {
    pub key: OrderKey,
    pub descending: bool,
}

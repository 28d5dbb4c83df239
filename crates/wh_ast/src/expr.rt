use sqlite_items::{Boxed, Items};
use wh_value::{Comparison, Text, Value};

/// What stands between two expressions.
#[derive(Clone, Copy, Debug, PartialEq, Eq)]
pub enum Operator {
    Or,
    And,
    Compare(Comparison),
    Add,
    Sub,
    Mul,
}

/// An expression.
#[cycle(expr)]
#[derive(Debug, Drop)]
pub enum Expr {
    /// A number without a sign, a text, TRUE, FALSE or NULL.
    Const(Value),
    /// An entry's name, if it is written, and a column's.
    Column(Option<Text>, Text),
    Neg(Boxed<Expr>),
    Not(Boxed<Expr>),
    Binary(Operator, Boxed<Expr>, Boxed<Expr>),
    /// Whether NOT stands there, here and in the next two.
    IsNull(bool, Boxed<Expr>),
    In(bool, Boxed<Expr>, Items<Expr>),
    /// The value, its least and its greatest.
    Between(bool, Boxed<Expr>, Boxed<Expr>, Boxed<Expr>),
    Sum(Boxed<Expr>),
    CountRows,
    Count(Boxed<Expr>),
}

//! Statements as they are written: names in upper case or as they were quoted. Blanks, comments
//! and parentheses are gone. Contracts see plain trees.
#![tactic(auto)]

mod dml;
mod expr;
mod query;
mod statement;

pub use dml::{Assignment, Dml, MergeClause, Rows};
pub use expr::{Expr, Operator};
pub use query::{Core, FromItem, Item, Join, OrderKey, Query, Sort};
pub use statement::{
    CreateDynamicTable, CreateTable, CreateTask, Initialize, Lag, RefreshMode, Statement, When,
    WhenCondition,
};

use wh_value::{Column, Text};

/// What an object of a statement is.
#[derive(Clone, Copy, Debug, PartialEq, Eq)]
pub enum ObjectKind {
    Table,
    Stream,
    Task,
    DynamicTable,
}

/// An object that a statement may name.
#[derive(Clone, Copy, Debug)]
pub struct Named<'a> {
    pub name: &'a Text,
    pub id: u32,
    pub kind: ObjectKind,
    pub columns: &'a [Column],
}

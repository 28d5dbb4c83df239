use wh_exec::Source;
use wh_value::Row;

/// Rows that come and rows that go.
#[derive(Drop)]
pub(crate) struct Moves {
    pub(crate) comes: Vec<Row>,
    pub(crate) goes: Vec<Row>,
}

/// The sources before, and what of each of them comes and goes.
#[derive(Clone, Copy)]
pub(crate) struct Changing<'a> {
    pub(crate) old: &'a [Source<'a>],
    pub(crate) comes: &'a [Source<'a>],
    pub(crate) goes: &'a [Source<'a>],
}

/// Rows, and which of them went and came since.
#[derive(Drop)]
pub(crate) struct Turned {
    pub(crate) old: Vec<Row>,
    pub(crate) moves: Moves,
}

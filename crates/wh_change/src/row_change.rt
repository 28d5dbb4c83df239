use wh_value::Row;

/// What became of a row.
#[derive(Clone, Copy, Debug, PartialEq, Eq)]
pub enum RowAction {
    Delete,
    Insert,
}

/// A row that went or came, by its number. An update is one of each, and both are marked.
#[derive(Clone, Copy, Debug)]
pub struct RowChange<'a> {
    pub number: u64,
    pub action: RowAction,
    pub is_update: bool,
    pub row: &'a Row,
}

impl<'a> RowChange<'a> {
    ghost use Rattle.std.specs.Prelude.{◌≡◌};
    ghost use Rattle.wh_net.specs.Net as streams;
    ghost use Rattle.wh_change.specs.RowChange.{row_change_of};

    pub(crate) fn deleted(number: u64, is_update: bool, row: &'a Row) -> RowChange<'a>
        ensures { row_change_of result ≡ streams.deleted number is_update row.now }
    {
        RowChange {
            number,
            action: RowAction::Delete,
            is_update,
            row,
        }
    }

    pub(crate) fn inserted(number: u64, is_update: bool, row: &'a Row) -> RowChange<'a>
        ensures { row_change_of result ≡ streams.inserted number is_update row.now }
    {
        RowChange {
            number,
            action: RowAction::Insert,
            is_update,
            row,
        }
    }
}

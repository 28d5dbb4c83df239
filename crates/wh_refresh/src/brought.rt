ghost use Rattle.std.specs.Prelude.{option_map, List, Contains, OnSome};
ghost use Rattle.wh_state.specs.Stored.{StoredObject};
ghost use Rattle.wh_machine.specs.Brought.{edits_sought};
ghost use Rattle.wh_machine.specs.Refresh as machine;
ghost use Rattle.wh_refresh.specs.Brought.{AreBrought, IsRowsOf};
ghost use Rattle.wh_refresh.specs.Asked.{ids_of};

use wh_dynamic::{DynamicState, GroupsChange};
use wh_reply::RefreshAction;
use wh_table::EditedTable;

/// What a refresh does to one table.
#[derive(Debug, Drop)]
pub(crate) struct Brought {
    pub id: u32,
    pub action: RefreshAction,
    /// The new version, where there is new data.
    pub rows: Option<NewRows>,
    pub state: DynamicState,
}

/// A version to come, how many rows come and go with it, and what it does to the table's groups,
/// where they are kept.
#[derive(Debug, Drop)]
pub(crate) struct NewRows {
    pub edited: EditedTable,
    pub plus: u64,
    pub minus: u64,
    pub groups: Option<GroupsChange>,
}

/// The version to come of the table of an id, if there is one.
#[cycle(new_rows_of)]
pub(crate) fn new_rows_of(all: &[Brought], id: u32) -> Option<&NewRows>
    ensures rows { (stored : List StoredObject) (bs : List machine.Brought)
        → AreBrought stored all.now bs
        → IsRowsOf stored id (option_map (λ r. r.now) result) (edits_sought id bs) }
    ensures among { OnSome result (Contains (ids_of all.now) id) }
{
    match all {
        [] => None,
        [one, others @ ..] => {
            if one.id == id {
                return one.rows.as_ref();
            }
            new_rows_of(others, id)
        }
    }
}

//! The texts behind a row's values. What the rows of a read have in common is made once.
ghost use Rattle.std.specs.Prelude.{◌≡◌, ◌≤◌, ◌++◌, length, codes, decimal, string_bytes, IfOk};
ghost use Rattle.wh_net.specs.Net.{Delete, Insert};
ghost use Rattle.wh_net.specs.Stream.{action_text, row_id_text};
ghost use Rattle.wh_change.specs.RowChange.{action_of};

use itoa::Buffer;
use std::alloc::{AllocError, Global};
use wh_change::RowAction;
use wh_value::Text;

/// The texts of both actions.
#[derive(Debug, Drop)]
pub(crate) struct ActionTexts {
    delete: Text,
    insert: Text,
    ghost deletes: { delete ≡ action_text Delete },
    ghost inserts: { insert ≡ action_text Insert },
}

impl ActionTexts {
    pub(crate) fn new(alloc: Global) -> Result<ActionTexts, AllocError> {
        let delete = Text::of(alloc, "DELETE")?;
        let insert = Text::of(alloc, "INSERT")?;
        Ok(ActionTexts { delete, insert })
    }

    /// A copy of an action's text.
    pub(crate) fn of(&self, alloc: Global, action: RowAction) -> Result<Text, AllocError>
        ensures { IfOk result (λ text. text ≡ action_text (action_of action)) }
    {
        match action {
            RowAction::Delete => self.delete.copy(alloc),
            RowAction::Insert => self.insert.copy(alloc),
        }
    }
}

/// The row ids of a source.
#[derive(Debug, Drop)]
pub(crate) struct RowIds {
    pub(crate) source: u32,
    /// What stands before a row's number.
    front: String,
    ghost written: { string_bytes front ≡ decimal source ++ codes ":" },
    ghost short: { length (string_bytes front) ≤ 11 },
}

impl RowIds {
    #[tactic(auto, using(crate::proofs::RowIdLaws::front_short))]
    pub(crate) fn new(alloc: Global, source: u32) -> Result<RowIds, AllocError>
        ensures { IfOk result (λ ids. ids.source ≡ source) }
    {
        let front = format!(in alloc; "{source}:")?;
        Ok(RowIds { source, front })
    }

    /// The id of a row by its number.
    #[tactic(auto, using(crate::proofs::RowIdLaws::id_short))]
    pub(crate) fn of(&self, alloc: Global, number: u64) -> Result<Text, AllocError>
        ensures { IfOk result (λ text. text ≡ row_id_text self.now.source number) }
    {
        let mut buffer = Buffer::new();
        let digits = buffer.format(number);
        let count = self.front.len() + digits.len();
        let mut id = String::with_capacity(alloc, count)?;
        id.push_str(self.front.as_str())?;
        id.push_str(digits)?;
        Text::from_string(alloc, id)
    }
}

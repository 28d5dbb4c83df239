use crate::Sessions;
use crate::transaction::Transaction;
use std::alloc::{AllocError, Global};
use wh_dml::Effect;
use wh_version::Edits;

impl Sessions {
    ghost use Rattle.std.specs.Prelude.{◌≡◌, Some, None, OnOk, OnErr};
    ghost use Rattle.wh_dml.specs.View.{effect_of};
    ghost use Rattle.wh_machine.specs.Transaction as machine;
    ghost use Rattle.wh_machine.specs.Sessions.{transaction_in, with_transaction};
    ghost use Rattle.wh_txn.specs.View.{sessions_of};

    /// An effect on a table is added to a session's open transaction, which holds the table and the
    /// streams that the statement reads from then on. Rows that are added are numbered from
    /// `next_row` on, the committed table's next one. For want of memory all stays as it was, and
    /// where no transaction is open.
    pub fn stage(
        &mut self,
        alloc: Global,
        session: u64,
        id: u32,
        streams: &[u32],
        next_row: u64,
        effect: Effect,
    ) -> Result<(), AllocError>
        ensures ok { OnOk result ((t : machine.Transaction)
            → transaction_in (sessions_of self.old) session ≡ Some t
            → sessions_of self.new ≡ with_transaction (sessions_of self.old) session
            (machine.staged t id streams.now next_row (effect_of effect))) }
        ensures closed { transaction_in (sessions_of self.old) session ≡ None
            → sessions_of self.new ≡ sessions_of self.old }
        ensures err { OnErr result (sessions_of self.new ≡ sessions_of self.old) }
    {
        match self.slots.get_mut(session as usize) {
            Some(slot) => {
                stage(slot, alloc, id, streams, next_row, effect)?;
                Ok(())
            }
            None => Ok(()),
        }
    }
}

ghost use Rattle.std.specs.Prelude.{◌≡◌, ◌<◌, Some, None, option_map, nat_lt, IfOk, OnOk, OnErr};
ghost use Rattle.wh_dml.specs.View.{effect_of};
ghost use Rattle.wh_machine.specs.Changes.{edits_of, counted};
ghost use Rattle.wh_machine.specs.Transaction as machine;
ghost use Rattle.wh_version.specs.Edits.{edits_in};
ghost use Rattle.wh_txn.specs.View.{transaction_of};

fn stage(
    slot: &mut Option<Transaction>,
    alloc: Global,
    id: u32,
    streams: &[u32],
    next_row: u64,
    effect: Effect,
) -> Result<(), AllocError>
    ensures ok { OnOk result ((t : machine.Transaction)
        → option_map transaction_of slot.old ≡ Some t
        → option_map transaction_of slot.new
        ≡ Some (machine.staged t id streams.now next_row (effect_of effect))) }
    ensures closed { option_map transaction_of slot.old ≡ None
        → option_map transaction_of slot.new ≡ option_map transaction_of slot.old }
    ensures err { OnErr result
        (option_map transaction_of slot.new ≡ option_map transaction_of slot.old) }
{
    let touches = is_some_counted(&effect);
    let later = edits(alloc, effect)?;
    match slot {
        Some(transaction) => {
            transaction.stage(alloc, id, streams, next_row, later, touches)?;
            Ok(())
        }
        None => Ok(()),
    }
}

/// Whether a row was inserted, changed or deleted.
pub(crate) fn is_some_counted(effect: &Effect) -> bool
    ensures { result ≡ nat_lt 0 (counted (effect_of effect.now)) }
{
    !effect.added.is_empty() || !effect.changed.is_empty() || !effect.removed.is_empty()
}

/// The edits that an effect comes to.
pub(crate) fn edits(alloc: Global, effect: Effect) -> Result<Edits, AllocError>
    ensures { IfOk result (λ edits. edits_in edits ≡ edits_of (effect_of effect)) }
{
    let Effect {
        removed,
        changed,
        added,
    } = effect;
    Edits::new(alloc, &removed, changed, added)
}

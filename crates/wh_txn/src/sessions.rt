use crate::transaction::Transaction;
use std::alloc::{AllocError, Global};
use wh_value::SESSIONS;

/// A place for each session from 0 on.
const PLACES: usize = SESSIONS as usize + 1;

/// The open transaction of each session.
#[derive(Debug, Drop)]
pub struct Sessions {
    pub(crate) alloc: Global,
    /// By the numbers of sessions.
    pub(crate) slots: Vec<Option<Transaction>>,
}

impl Sessions {
    ghost use Rattle.std.specs.Prelude.{◌≡◌, option_map, IfOk};
    ghost use Rattle.wh_machine.specs.Sessions as machine;
    ghost use Rattle.wh_txn.specs.View.{sessions_of, transaction_of};

    /// No transaction is open.
    pub fn new(alloc: Global) -> Result<Sessions, AllocError>
        ensures { IfOk result (λ made. sessions_of made ≡ machine.no_sessions) }
    {
        let slots = closed(alloc)?;
        Ok(Sessions { alloc, slots })
    }

    /// The open transaction of a session.
    pub(crate) fn transaction(&self, session: u64) -> Option<&Transaction>
        ensures { option_map (λ t. transaction_of t.now) result
            ≡ machine.transaction_in (sessions_of self.now) session }
    {
        match self.slots.get(session as usize) {
            Some(slot) => slot.as_ref(),
            None => None,
        }
    }

    /// The number of a session's open transaction. None exactly where none is open.
    pub fn number(&self, session: u64) -> Option<u64>
        ensures { result ≡ machine.number_in (sessions_of self.now) session }
    {
        let transaction = self.transaction(session)?;
        Some(transaction.number)
    }

    /// The number of the transaction that holds an object. None exactly where nobody holds it.
    pub fn holder(&self, id: u32) -> Option<u64>
        ensures { result ≡ machine.holder (sessions_of self.now) id }
    {
        holder(&self.slots, id)
    }

    /// The number of another session's transaction that holds an object.
    pub fn locked_by(&self, session: u64, id: u32) -> Option<u64>
        ensures { result ≡ machine.locked_by (sessions_of self.now) session id }
    {
        let place = session as usize;
        if self.slots.len() <= place {
            return holder(&self.slots, id);
        }
        let earlier = holder(&self.slots[..place], id);
        if earlier.is_some() {
            return earlier;
        }
        holder(&self.slots[place + 1..], id)
    }

    /// A session's transaction begins at a stamp.
    pub fn begin(&mut self, session: u64, stamp: u64)
        ensures { sessions_of self.new ≡ machine.with_begun (sessions_of self.old) session stamp }
    {
        let place = session as usize;
        if place < self.slots.len() {
            self.slots[place] = Some(Transaction::begun(self.alloc, stamp));
        }
    }

    /// A session's transaction ends, and its holds with it.
    pub fn rollback(&mut self, session: u64)
        ensures { sessions_of self.new ≡ machine.with_ended (sessions_of self.old) session }
    {
        let place = session as usize;
        if place < self.slots.len() {
            self.slots[place] = None;
        }
    }
}

ghost use Rattle.std.specs.Prelude.{◌≡◌, ◌+◌, None, map, option_map, replicate, IfOk};
ghost use Rattle.wh_value.specs.Limit.{last_session};
ghost use Rattle.wh_machine.specs.Sessions as machine;
ghost use Rattle.wh_txn.specs.View.{transaction_of};

// A place for each session, with no transaction.
fn closed(alloc: Global) -> Result<Vec<Option<Transaction>>, AllocError>
    ensures { IfOk result (λ slots. slots.items ≡ replicate (last_session + 1) None) }
{
    let mut slots = Vec::with_capacity(alloc, PLACES)?;
    for _place in 0..PLACES {
        slots.push(None)?;
    }
    Ok(slots)
}

// The number of the first of these transactions that holds an object.
fn holder(slots: &[Option<Transaction>], id: u32) -> Option<u64>
    ensures { result ≡ machine.holder (map (option_map transaction_of) slots.now) id }
{
    for slot in slots {
        let number = held_by(slot, id);
        if number.is_some() {
            return number;
        }
    }
    None
}

fn held_by(slot: &Option<Transaction>, id: u32) -> Option<u64>
    ensures { result ≡ machine.held_by id (option_map transaction_of slot.now) }
{
    match slot {
        Some(transaction) if transaction.holds(id) => Some(transaction.number),
        _ => None,
    }
}

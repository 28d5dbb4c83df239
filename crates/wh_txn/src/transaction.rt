use crate::ids::{is_among, with_ids};
use std::alloc::{AllocError, Global};
use std::collections::BTreeMap;
use wh_version::Edits;

/// The edits of a table that is held. It is touched where a statement inserted, changed or deleted
/// a row of it.
#[derive(Debug, Drop)]
pub(crate) struct Staged {
    pub(crate) edits: Edits,
    pub(crate) is_touched: bool,
}

impl Staged {
    ghost use Rattle.std.specs.Prelude.{◌≡◌, OnOk, OnErr};
    ghost use Rattle.wh_version.specs.Edits.{edits_in};
    ghost use Rattle.wh_txn.specs.View.{staged_of, amended};

    /// Later edits on top of these. For want of memory they stay as they were.
    fn amend(
        &mut self,
        alloc: Global,
        next_row: u64,
        later: Edits,
        touches: bool,
    ) -> Result<(), AllocError>
        ensures ok { OnOk result (staged_of self.new
            ≡ amended next_row (edits_in later) touches (staged_of self.old)) }
        ensures err { OnErr result (staged_of self.new ≡ staged_of self.old) }
    {
        self.edits.amend(alloc, next_row, later)?;
        self.is_touched = self.is_touched || touches;
        Ok(())
    }
}

/// A transaction, with the tables that it holds by their ids, and the streams that it reads.
#[derive(Debug, Drop)]
pub(crate) struct Transaction {
    pub(crate) number: u64,
    pub(crate) tables: BTreeMap<u32, Staged>,
    /// By rising ids, each once.
    pub(crate) streams: Vec<u32>,
}

impl Transaction {
    ghost use Rattle.std.specs.Prelude.{◌≡◌, is_some, option_map, OnOk, OnErr};
    ghost use Rattle.std.specs.FinMap.{get};
    ghost use Rattle.wh_version.specs.Edits.{edits_in};
    ghost use Rattle.wh_machine.specs.Transaction as machine;
    ghost use Rattle.wh_machine.specs.Sessions.{is_held};
    ghost use Rattle.wh_txn.specs.View.{staged_of, transaction_of, with_edits, with_reads};

    /// A new transaction. Takes no memory.
    pub(crate) fn begun(alloc: Global, stamp: u64) -> Transaction
        ensures { transaction_of result ≡ machine.begun stamp }
    {
        Transaction {
            number: stamp,
            tables: BTreeMap::new(alloc),
            streams: Vec::new(alloc),
        }
    }

    /// The stamp that its streams are read up to.
    pub(crate) fn start(&self) -> u64
        ensures { result ≡ machine.start_of (transaction_of self.now) }
    {
        self.number.saturating_sub(1)
    }

    /// Whether it holds the object of an id, a table or a stream.
    pub(crate) fn holds(&self, id: u32) -> bool
        ensures { result ≡ is_held (transaction_of self.now) id }
    {
        self.tables.contains_key(&id) || is_among(id, &self.streams)
    }

    /// What it has staged for the table of an id.
    pub(crate) fn staged(&self, id: u32) -> Option<&Staged>
        ensures { option_map (λ s. staged_of s.now) result
            ≡ get (transaction_of self.now).tables id }
    {
        self.tables.get(&id)
    }

    /// Later edits of a table on top of those that are staged, by a statement that reads some
    /// streams; it holds the table and these from then on. For want of memory all stays as it was.
    pub(crate) fn stage(
        &mut self,
        alloc: Global,
        id: u32,
        streams: &[u32],
        next_row: u64,
        later: Edits,
        touches: bool,
    ) -> Result<(), AllocError>
        ensures ok { OnOk result (transaction_of self.new
            ≡ with_reads streams.now
            (with_edits next_row (edits_in later) touches id (transaction_of self.old))) }
        ensures err { OnErr result (transaction_of self.new ≡ transaction_of self.old) }
    {
        let streams = with_ids(alloc, &self.streams, streams)?;
        self.edit(alloc, id, next_row, later, touches)?;
        self.streams = streams;
        Ok(())
    }

    // Later edits of a table on top of those that are staged.
    fn edit(
        &mut self,
        alloc: Global,
        id: u32,
        next_row: u64,
        later: Edits,
        touches: bool,
    ) -> Result<(), AllocError>
        ensures ok { OnOk result (transaction_of self.new
            ≡ with_edits next_row (edits_in later) touches id (transaction_of self.old)) }
        ensures err { OnErr result (transaction_of self.new ≡ transaction_of self.old) }
    {
        match self.tables.get_mut(&id) {
            Some(staged) => {
                staged.amend(alloc, next_row, later, touches)?;
                Ok(())
            }
            None => self.hold(alloc, id, next_row, later, touches),
        }
    }

    // The first edits of a table.
    fn hold(
        &mut self,
        alloc: Global,
        id: u32,
        next_row: u64,
        later: Edits,
        touches: bool,
    ) -> Result<(), AllocError>
        requires { get (transaction_of self.old).tables id ≡ None }
        ensures ok { OnOk result (transaction_of self.new
            ≡ with_edits next_row (edits_in later) touches id (transaction_of self.old)) }
        ensures err { OnErr result (transaction_of self.new ≡ transaction_of self.old) }
    {
        let mut staged = Staged {
            edits: Edits::none(alloc),
            is_touched: false,
        };
        staged.amend(alloc, next_row, later, touches)?;
        let Ok(_) = self.tables.insert(id, staged) else {
            return Err(AllocError);
        };
        Ok(())
    }
}

ghost use Rattle.std.specs.Prelude.{◌≡◌};
ghost use Rattle.wh_state.specs.Dynamic as machine;
ghost use Rattle.wh_dynamic.specs.Query.{query_of};

use crate::kept::{GroupsChange, Kept};
use crate::query::DynamicQuery;
use crate::reads::ids_read;
use crate::state::DynamicState;
use std::alloc::{AllocError, Global};
use wh_group::Before;

/// What a dynamic table has beside its rows.
#[derive(Debug, Drop)]
pub struct Dynamic {
    query: DynamicQuery,
    // The ids of what its query reads, so that a schedule need not walk the query.
    reads: Vec<u32>,
    is_incremental: bool,
    state: DynamicState,
    kept: Option<Kept>,
    ghost known: { reads.items ≡ machine.ids_read (query_of query) },
}

impl Dynamic {
    ghost use Rattle.std.specs.Prelude.{◌≡◌, option_map, OnOk, OnErr, IfOk};
    ghost use Rattle.std.specs.Option.{option_map_or};
    ghost use Rattle.std.specs.FinMap.{empty};
    ghost use Rattle.wh_group.specs.Slots.{put_before, settle_before};
    ghost use Rattle.wh_state.specs.Dynamic as machine;
    ghost use Rattle.wh_dynamic.specs.View.{query_of, state_of, dynamic_of, kept_of, kept_slots};
    ghost use Rattle.wh_dynamic.specs.View.{groups_change_of, slots_in, with_slots};

    /// As it is created.
    pub fn new(
        alloc: Global,
        lag: u32,
        is_incremental: bool,
        kept: Option<Kept>,
        query: DynamicQuery,
    ) -> Result<Dynamic, AllocError>
        ensures made { IfOk result (λ d. dynamic_of d
            ≡ machine.new_dynamic lag is_incremental (option_map kept_of kept) (query_of query)) }
        ensures slots { IfOk result (λ d. slots_in d ≡ option_map_or kept_slots kept empty) }
    {
        let reads = ids_read(alloc, &query)?;
        Ok(Dynamic {
            query,
            reads,
            is_incremental,
            state: DynamicState::first(lag),
            kept,
        })
    }

    pub fn query(&self) -> &DynamicQuery
        ensures { query_of result.now ≡ (dynamic_of self.now).query }
    {
        &self.query
    }

    /// The ids of what it reads, in the order of its query's text.
    pub fn reads(&self) -> &[u32]
        ensures { result.now ≡ machine.ids_read (dynamic_of self.now).query }
    {
        &self.reads
    }

    /// Whether its refreshes carry changes through its query.
    pub fn is_incremental(&self) -> bool
        ensures { result ≡ (dynamic_of self.now).is_incremental }
    {
        self.is_incremental
    }

    pub fn state(&self) -> DynamicState
        ensures { state_of result ≡ (dynamic_of self.now).state }
    {
        self.state
    }

    /// Puts it into another state.
    pub fn set(&mut self, state: DynamicState)
        ensures set { dynamic_of self.new
            ≡ machine.with_dynamic_state (state_of state) (dynamic_of self.old) }
        ensures slots { slots_in self.new ≡ slots_in self.old }
    {
        self.state = state;
    }

    /// Its groups, where it is kept.
    pub fn kept(&self) -> Option<&Kept>
        ensures { option_map (λ k. kept_of k.now) result ≡ (dynamic_of self.now).kept }
    {
        self.kept.as_ref()
    }

    /// Sets groups, where it is kept, and gives what takes that back.
    pub fn set_groups(&mut self, alloc: Global, change: GroupsChange) -> Result<Before, AllocError>
        ensures set { OnOk result (dynamic_of self.new
            ≡ machine.behind_change (groups_change_of change) (dynamic_of self.old)) }
        ensures was { IfOk result (λ was. slots_in self.old ≡ put_before was (slots_in self.new)) }
        ensures same { OnErr result (dynamic_of self.new ≡ dynamic_of self.old) }
        ensures same_slots { OnErr result (slots_in self.new ≡ slots_in self.old) }
    {
        match &mut self.kept {
            Some(kept) => kept.set(alloc, change.entries),
            None => Ok(Before::Nothing),
        }
    }

    /// Puts groups back as they were. Takes no memory.
    pub fn put_groups_back(&mut self, was: Before)
        ensures back { dynamic_of self.new
            ≡ with_slots (put_before was (slots_in self.old)) (dynamic_of self.old) }
        ensures slots { slots_in self.new ≡ put_before was (slots_in self.old) }
    {
        if let Some(kept) = &mut self.kept {
            kept.put_back(was);
        }
    }

    /// Lets go of the memory of groups that were removed.
    pub fn settle_groups(&mut self, was: &Before)
        ensures same { dynamic_of self.new ≡ dynamic_of self.old }
        ensures slots { slots_in self.new ≡ settle_before was.now (slots_in self.old) }
    {
        if let Some(kept) = &mut self.kept {
            kept.settle(was);
        }
    }
}

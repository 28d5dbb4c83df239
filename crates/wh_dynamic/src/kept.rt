//! Groups that are kept of a dynamic table.
use std::alloc::{AllocError, Global};
use wh_group::{Before, Entry, Groups};

/// The groups of a table whose query is one Group over a linear query.
#[derive(Debug, Drop)]
pub struct Kept {
    keys: u32,
    calls: u32,
    groups: Groups,
}

/// What a version does to the groups of its table: entries by rising key, with that many keys and
/// calls.
#[derive(Debug, Drop)]
pub struct GroupsChange {
    pub keys: u32,
    pub calls: u32,
    pub entries: Vec<Entry>,
}

impl Kept {
    ghost use Rattle.std.specs.Prelude.{◌≡◌, OnOk, OnErr, IfOk};
    ghost use Rattle.std.specs.FinMap.{empty};
    ghost use Rattle.wh_group.specs.Slots.{slots_of, kept_groups, put_before, settle_before};
    ghost use Rattle.wh_group.specs.Slots.{groups_of_slots};
    ghost use Rattle.wh_state.specs.Dynamic.{behind_entries};
    ghost use Rattle.wh_dynamic.specs.View.{kept_of, kept_slots};

    /// No group yet. Takes no memory.
    pub fn first(alloc: Global, keys: u32, calls: u32) -> Kept
        ensures kept { kept_of result ≡ record { keys = keys; calls = calls; groups = empty } }
        ensures slots { kept_slots result ≡ empty }
    {
        Kept {
            keys,
            calls,
            groups: Groups::new(alloc),
        }
    }

    /// How many keys the Group has.
    pub fn keys(&self) -> u32
        ensures { result ≡ (kept_of self.now).keys }
    {
        self.keys
    }

    /// How many calls it has.
    pub fn calls(&self) -> u32
        ensures { result ≡ (kept_of self.now).calls }
    {
        self.calls
    }

    pub fn groups(&self) -> &Groups
        ensures groups { kept_groups result.now ≡ (kept_of self.now).groups }
        ensures slots { slots_of result.now ≡ kept_slots self.now }
    {
        &self.groups
    }

    /// Sets groups, all or none, and gives what takes that back.
    pub(crate) fn set(&mut self, alloc: Global, entries: Vec<Entry>) -> Result<Before, AllocError>
        ensures set { OnOk result (kept_of self.new
            ≡ behind_entries entries.items (kept_of self.old)) }
        ensures was { IfOk result (λ was. kept_slots self.old
            ≡ put_before was (kept_slots self.new)) }
        ensures same { OnErr result (kept_of self.new ≡ kept_of self.old) }
        ensures same_slots { OnErr result (kept_slots self.new ≡ kept_slots self.old) }
    {
        self.groups.set_all(alloc, entries)
    }

    /// Puts groups back as they were. Takes no memory.
    pub(crate) fn put_back(&mut self, was: Before)
        ensures kept { kept_of self.new ≡ record (kept_of self.old) {
          groups = groups_of_slots (put_before was (kept_slots self.old));
        } }
        ensures slots { kept_slots self.new ≡ put_before was (kept_slots self.old) }
    {
        self.groups.put_back_all(was);
    }

    /// Lets go of the memory of groups that were removed.
    pub(crate) fn settle(&mut self, was: &Before)
        ensures kept { kept_of self.new ≡ kept_of self.old }
        ensures slots { kept_slots self.new ≡ settle_before was.now (kept_slots self.old) }
    {
        self.groups.settle_all(was);
    }
}

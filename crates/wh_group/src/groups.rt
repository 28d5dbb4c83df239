//! Kept groups by key.
ghost use Rattle.std.specs.Prelude.{◌≡◌};
ghost use Rattle.std.specs.List.{list_all};
ghost use Rattle.wh_group.specs.Slots.{has_group};

use crate::standing::Standing;
use std::alloc::{AllocError, Global};
use std::collections::BTreeMap;
use std::marker::Model;
use std::mem;
use wh_value::Row;

/// A key, and the group that stands at it from then on, or none.
#[derive(Debug, Drop)]
pub struct Entry {
    pub key: Row,
    pub group: Option<Standing>,
}

impl Model for Entry {
    ghost use Rattle.wh_maintenance.specs.Entries.{GroupEntry};
    ghost use Rattle.wh_group.specs.Standing.{coded_entry};

    ghost Value = { GroupEntry };

    ghost coded = { coded_entry };

    ghost view = { λ e. record { key = e.key; group = e.group } };
}

impl Entry {
    ghost use Rattle.std.specs.Prelude.{◌≡◌};
    ghost use Rattle.wh_group.specs.Slots.{has_group, slot_of};

    fn has_group(&self) -> bool
        ensures { result ≡ has_group self.now }
    {
        match &self.group {
            Some(group) => group.rows > 0,
            None => false,
        }
    }

    // The slot that the entry fills, which has no rows where it has no group.
    fn into_slot(self, alloc: Global) -> (Row, Standing)
        ensures { result ≡ slot_of self }
    {
        (self.key, self.group.unwrap_or(Standing::gone(alloc)))
    }
}

/// What stood before a call of `Groups::set_all`, which takes that call back.
#[derive(Debug, Drop)]
pub enum Before {
    /// No slot at all.
    Nothing,
    /// In the slot of each key, from the first that was set to the last.
    Entries(Vec<Entry>),
}

/// Kept groups, each in the slot of its key. A group that is removed leaves its slot, with no
/// rows, so that it is put back without memory; `settle` removes the slot.
#[derive(Debug, Drop)]
pub struct Groups {
    map: BTreeMap<Row, Standing>,
}

impl Groups {
    ghost use Rattle.std.specs.Prelude.{◌≡◌, ◌≢◌, true, IfOk, OnOk, OnErr};
    ghost use Rattle.std.specs.List.{list_all};
    ghost use Rattle.std.specs.Option.{option_copied};
    ghost use Rattle.std.specs.FinMap as maps;
    ghost use Rattle.std.specs.FinMap.{empty, insert, remove};
    ghost use Rattle.wh_maintenance.specs.Entries as meaning;
    ghost use Rattle.wh_maintenance.specs.Entries.{set_one};
    ghost use Rattle.wh_group.specs.Slots.{slots_of, kept_groups, put_slot, put_slots};
    ghost use Rattle.wh_group.specs.Slots.{settle_slot, settle_slots, put_before, settle_before};
    ghost use Rattle.wh_group.specs.Slots.{has_group, Replaces};

    /// No slot yet. Takes no memory.
    pub fn new(alloc: Global) -> Groups
        ensures slots { slots_of result ≡ empty }
        ensures groups { kept_groups result ≡ empty }
    {
        Groups {
            map: BTreeMap::new(alloc),
        }
    }

    /// The group that stands at a key.
    pub fn get(&self, key: &Row) -> Option<&Standing>
        ensures { option_copied result ≡ maps.get (kept_groups self.now) key.now }
    {
        match self.map.get(key) {
            Some(group) if group.rows > 0 => Some(group),
            _ => None,
        }
    }

    /// Lets an entry's group stand at its key, or none, and gives what takes that back. A group
    /// with no rows is refused, as for want of memory.
    pub fn set(&mut self, alloc: Global, entry: Entry) -> Result<Entry, AllocError>
        ensures ok { OnOk result (kept_groups self.new ≡ set_one (kept_groups self.old) entry) }
        ensures was { IfOk result (λ was. slots_of self.old ≡ put_slot (slots_of self.new) was) }
        ensures err { OnErr result (slots_of self.new ≡ slots_of self.old) }
    {
        let Entry { key, group } = entry;
        match group {
            Some(group) if group.rows == 0 => Err(AllocError),
            Some(group) => self.fill(alloc, key, group),
            None => Ok(self.vacate(alloc, key)),
        }
    }

    /// Takes a call of `set` back. Takes no memory.
    pub fn put_back(&mut self, was: Entry)
        ensures { slots_of self.new ≡ put_slot (slots_of self.old) was }
    {
        let Entry { key, group } = was;
        match group {
            Some(group) => {
                let _ = self.replace(&key, group);
            }
            None => {
                self.map.remove(&key);
            }
        }
    }

    /// Removes the slot of a key whose group was removed. Takes no memory.
    pub fn settle(&mut self, key: &Row)
        ensures slots { slots_of self.new ≡ settle_slot (slots_of self.old) key.now }

        // So no group is another.
        ensures groups { kept_groups self.new ≡ kept_groups self.old }
    {
        if self.get(key).is_none() {
            self.map.remove(key);
        }
    }

    /// Sets entries from the first to the last, all or none, and gives what takes that back.
    pub fn set_all(&mut self, alloc: Global, entries: Vec<Entry>) -> Result<Before, AllocError>
        ensures ok { OnOk result
            (kept_groups self.new ≡ meaning.set_all entries.items (kept_groups self.old)) }
        ensures was { IfOk result (λ was. slots_of self.old ≡ put_before was (slots_of self.new)) }
        ensures err { OnErr result (slots_of self.new ≡ slots_of self.old) }
    {
        if self.map.is_empty() && have_groups(&entries) {
            *self = Groups::begun(alloc, entries)?;
            return Ok(Before::Nothing);
        }
        let was = self.set_each(alloc, entries)?;
        Ok(Before::Entries(was))
    }

    /// Takes a call of `set_all` back. Takes no memory.
    pub fn put_back_all(&mut self, was: Before)
        ensures { slots_of self.new ≡ put_before was (slots_of self.old) }
    {
        match was {
            Before::Nothing => self.map.clear(),
            Before::Entries(was) => self.put_back_each(was),
        }
    }

    /// Removes the slots that a call of `set_all` found, by what it gave, where their groups were
    /// removed. Takes no memory.
    pub fn settle_all(&mut self, was: &Before)
        ensures slots { slots_of self.new ≡ settle_before was.now (slots_of self.old) }

        // So no group is another.
        ensures groups { kept_groups self.new ≡ kept_groups self.old }
    {
        match was {
            Before::Nothing => {}
            Before::Entries(was) => self.settle_each(was),
        }
    }

    // What entries set into no slot at all. The tree is built at once, without a search.
    fn begun(alloc: Global, entries: Vec<Entry>) -> Result<Groups, AllocError>
        requires { list_all has_group entries.items ≡ true }
        ensures { IfOk result (λ begun. kept_groups begun ≡ meaning.set_all entries.items empty) }
    {
        let slots = entries.into_iter().map(|entry| entry.into_slot(alloc));
        let map = slots.collect(alloc)?;
        Ok(Groups { map })
    }

    // Sets entries one after the other, all or none, and gives what stood in their slots.
    fn set_each(&mut self, alloc: Global, entries: Vec<Entry>) -> Result<Vec<Entry>, AllocError>
        ensures ok { OnOk result
            (kept_groups self.new ≡ meaning.set_all entries.items (kept_groups self.old)) }
        ensures was { IfOk result
            (λ was. slots_of self.old ≡ put_slots was.items (slots_of self.new)) }
        ensures err { OnErr result (slots_of self.new ≡ slots_of self.old) }
    {
        let mut was = Vec::with_capacity(alloc, entries.len())?;
        for entry in entries {
            let Ok(()) = self.set_next(alloc, entry, &mut was) else {
                self.put_back_each(was);
                return Err(AllocError);
            };
        }
        Ok(was)
    }

    // Puts back what stood in slots, from the last to the first.
    fn put_back_each(&mut self, was: Vec<Entry>)
        ensures { slots_of self.new ≡ put_slots was.items (slots_of self.old) }
    {
        let mut was = was;
        while let Some(entry) = was.pop() {
            self.put_back(entry);
        }
    }

    // Removes slots that were found, where their groups were removed.
    fn settle_each(&mut self, was: &[Entry])
        ensures slots { slots_of self.new ≡ settle_slots was.now (slots_of self.old) }
        ensures groups { kept_groups self.new ≡ kept_groups self.old }
    {
        for entry in was {
            // An entry that found no slot removed no group.
            if entry.group.is_some() {
                self.settle(&entry.key);
            }
        }
    }

    // Sets an entry, and adds what takes that back.
    fn set_next(
        &mut self,
        alloc: Global,
        entry: Entry,
        was: &mut Vec<Entry>,
    ) -> Result<(), AllocError>
        ensures ok { OnOk result (kept_groups self.new ≡ set_one (kept_groups self.old) entry) }
        ensures was { put_slots was.new.items (slots_of self.new)
            ≡ put_slots was.old.items (slots_of self.old) }
    {
        was.reserve(1)?;
        let before = self.set(alloc, entry)?;
        was.push(before).unwrap();
        Ok(())
    }

    // Lets a group stand at a key, by one search.
    fn fill(&mut self, alloc: Global, key: Row, group: Standing) -> Result<Entry, AllocError>
        requires { group.rows ≢ 0 }
        ensures ok { OnOk result (kept_groups self.new ≡ insert (kept_groups self.old) key group) }
        ensures was { IfOk result (λ was. slots_of self.old ≡ put_slot (slots_of self.new) was) }
        ensures err { OnErr result (slots_of self.new ≡ slots_of self.old) }
    {
        let copy = key.copy(alloc)?;
        match self.map.insert(copy, group) {
            Ok(was) => Ok(Entry { key, group: was }),
            Err(_) => Err(AllocError),
        }
    }

    // Removes the group at a key. Its slot, if there is one, is left with no rows.
    fn vacate(&mut self, alloc: Global, key: Row) -> Entry
        ensures ok { kept_groups self.new ≡ remove (kept_groups self.old) key }
        ensures was { slots_of self.old ≡ put_slot (slots_of self.new) result }
    {
        match self.replace(&key, Standing::gone(alloc)) {
            Ok(was) => Entry {
                key,
                group: Some(was),
            },
            Err(_) => Entry { key, group: None },
        }
    }

    // Puts a standing into the slot of a key, and gives what stood there. Where there is no slot,
    // it comes back.
    fn replace(&mut self, key: &Row, standing: Standing) -> Result<Standing, Standing>
        ensures { Replaces result (slots_of self.old) key.now standing (slots_of self.new) }
    {
        match self.map.get_mut(key) {
            Some(slot) => Ok(mem::replace(slot, standing)),
            None => Err(standing),
        }
    }
}

fn have_groups(entries: &[Entry]) -> bool
    ensures { result ≡ list_all has_group entries.now }
{
    entries.iter().all(|entry| entry.has_group())
}

use crate::grouping::{groups_set, settle_groups};
use crate::undo::Step;
use crate::{Catalog, StageFault, Undo};
use std::alloc::{AllocError, Global};
use wh_record::{OutlinedChange, OutlinedCommit};
use wh_value::Limit;

impl Catalog {
    ghost use Rattle.std.specs.Prelude.{◌≡◌, ◌++◌, [], map, None, OnOk, IfOk, OnErr, IsErrOf};
    ghost use Rattle.wh_filed.specs.Filed.{AreAmong};
    ghost use Rattle.wh_state.specs.Commit.{Applies, applied, AllApply, all_changed, GroupsFollow};
    ghost use Rattle.wh_record.specs.View.{commit_of, change_of};
    ghost use Rattle.wh_record.specs.Places.{filed_in, filed_in_changes};
    ghost use Rattle.wh_catalog.specs.Catalog.{stored_of, state_of, objects_of, kept_of, filed_of};
    ghost use Rattle.wh_catalog.specs.Undo.{undone, Undoes};

    /// Carries out a commit, each of its changes tested on what those before it left. The result
    /// takes it back. The commit's payload stands at that position in the file.
    pub fn stage(&mut self, commit: OutlinedCommit, at: u64) -> Result<Undo, StageFault>
        ensures applies { OnOk result (Applies (stored_of self.old) (commit_of commit)) }
        ensures applied { OnOk result (stored_of self.new
            ≡ applied (stored_of self.old) (commit_of commit)) }
        ensures last { OnOk result ((state_of self.new).last ≡ commit.stamp) }
        ensures filed { OnOk result (AreAmong (filed_of self.new)
            (filed_of self.old ++ filed_in at (commit_of commit))) }
        ensures undoes { IfOk result (λ undo. Undoes undo self.new self.old) }

        ensures not_applicable { IsErrOf result StageFault.NotApplicable
            → Applies (stored_of self.old) (commit_of commit) → ⊥ }
        ensures same { OnErr result (stored_of self.new ≡ stored_of self.old) }
        ensures same_state { OnErr result (state_of self.new ≡ state_of self.old) }
        ensures same_filed { OnErr result (filed_of self.new ≡ filed_of self.old) }
    {
        let OutlinedCommit { stamp, changes } = commit;
        if stamp <= self.committed || Limit::Stamp.bound() <= stamp {
            return Err(StageFault::NotApplicable);
        }
        // Behind a stamp and a count.
        let Some(first) = at.checked_add(12) else {
            return Err(StageFault::OutOfMemory);
        };
        let last = self.last;
        let committed = self.committed;
        let mut steps = Vec::new(self.alloc);
        match self.carry_out_all(changes, stamp, first, &mut steps) {
            Ok(()) => {
                self.last = stamp;
                self.committed = stamp;
                Ok(Undo {
                    last,
                    committed,
                    steps,
                })
            }
            Err(fault) => {
                self.take_back_all(steps);
                Err(fault)
            }
        }
    }

    // Carries out changes one after the other, up to one that can't be, and keeps what takes them
    // back. They stand one behind the other from that position on.
    fn carry_out_all(
        &mut self,
        changes: Vec<OutlinedChange>,
        stamp: u64,
        first: u64,
        steps: &mut Vec<Step>,
    ) -> Result<(), StageFault>
        requires { steps.old.items ≡ [] }
        ensures apply { OnOk result (AllApply stamp (objects_of self.old)
            (map change_of changes.items)) }
        ensures follow { OnOk result (GroupsFollow stamp (objects_of self.old) None
            (map change_of changes.items)) }
        ensures changed { OnOk result (objects_of self.new
            ≡ all_changed stamp (objects_of self.old) (map change_of changes.items)) }
        ensures filed { OnOk result (AreAmong (filed_of self.new)
            (filed_of self.old ++ filed_in_changes first (map change_of changes.items))) }
        ensures not_applicable { IsErrOf result StageFault.NotApplicable
            → AllApply stamp (objects_of self.old) (map change_of changes.items)
            → GroupsFollow stamp (objects_of self.old) None (map change_of changes.items) → ⊥ }
        ensures back { undone steps.new.items (kept_of self.new) ≡ kept_of self.old }
        ensures last { self.new.last ≡ self.old.last }
        ensures committed { self.new.committed ≡ self.old.committed }
    {
        let mut at = first;
        let mut due = None;
        for change in changes {
            if groups_set(&change) != due {
                return Err(StageFault::NotApplicable);
            }
            due = self.groups_due(&change);
            if steps.reserve(1).is_err() {
                return Err(StageFault::OutOfMemory);
            }
            let Ok(behind) = behind(self.alloc, at, &change) else {
                return Err(StageFault::OutOfMemory);
            };
            match self.carry_out(change, stamp, at) {
                Ok(step) => steps.push_reserved(step),
                Err(fault) => return Err(fault),
            }
            at = behind;
        }
        if due.is_some() {
            return Err(StageFault::NotApplicable);
        }
        Ok(())
    }

    /// Lets go of what takes a commit back, and of the memory of groups that it removed. What a
    /// catalog stands for stays.
    pub fn settle(&mut self, undo: Undo)
        ensures stored { stored_of self.new ≡ stored_of self.old }
        ensures state { state_of self.new ≡ state_of self.old }
        ensures filed { filed_of self.new ≡ filed_of self.old }
    {
        let Undo { steps, .. } = undo;
        for step in steps {
            self.settle_step(step);
        }
    }

    fn settle_step(&mut self, step: Step)
        ensures objects { objects_of self.new ≡ objects_of self.old }
        ensures filed { filed_of self.new ≡ filed_of self.old }
        ensures last { self.new.last ≡ self.old.last }
        ensures committed { self.new.committed ≡ self.old.committed }
    {
        if let Step::SetGroups { id, was } = step {
            settle_groups(&mut self.objects, id, &was);
        }
    }

    /// Takes back what was staged. Takes no memory, and can't fail.
    pub fn undo(&mut self, undo: Undo)
        ensures stored { (before : Catalog) → Undoes undo self.old before
            → stored_of self.new ≡ stored_of before }
        ensures state { (before : Catalog) → Undoes undo self.old before
            → state_of self.new ≡ state_of before }
        ensures filed { (before : Catalog) → Undoes undo self.old before
            → filed_of self.new ≡ filed_of before }
    {
        let Undo {
            last,
            committed,
            steps,
        } = undo;
        self.take_back_all(steps);
        self.last = last;
        self.committed = committed;
    }

    // Takes steps back, the last one first.
    fn take_back_all(&mut self, mut steps: Vec<Step>)
        ensures back { kept_of self.new ≡ undone steps.items (kept_of self.old) }
        ensures last { self.new.last ≡ self.old.last }
        ensures committed { self.new.committed ≡ self.old.committed }
    {
        while let Some(step) = steps.pop() {
            self.take_back(step);
        }
    }
}

ghost use Rattle.std.specs.Prelude.{◌≡◌, ◌+◌, IfOk};
ghost use Rattle.wh_record.specs.View.{change_of};
ghost use Rattle.wh_record.specs.Places.{change_size};

// The position behind a change whose tag stands at a position.
fn behind(alloc: Global, at: u64, change: &OutlinedChange) -> Result<u64, AllocError>
    ensures { IfOk result (λ behind. behind ≡ at + change_size (change_of change.now)) }
{
    let size = change.size(alloc)?;
    at.checked_add(size).ok_or(AllocError)
}

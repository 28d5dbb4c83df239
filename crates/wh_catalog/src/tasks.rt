//! New tasks, and when what a commit does to tasks applies.
use crate::{Catalog, StageFault, StoredKind, StoredObject};
use wh_record::TaskChange;
use wh_task::{Task, TaskState, is_under_way};
use wh_value::Limit;

/// The runs of a root that failed in a row, and are counted, are no more.
const MOST_FAILURES: u32 = 10;

impl Catalog {
    ghost use Rattle.std.specs.Prelude.{◌≡◌, ℕ, ◌++◌, ◌∷◌, [], OnOk, IfOk, IsErrOf};
    ghost use Rattle.std.specs.List.{list_all};
    ghost use Rattle.std.specs.Option.{option_and_then, option_map_or};
    ghost use Rattle.wh_state.specs.State.{at_id};
    ghost use Rattle.wh_state.specs.Objects.{task_at, live_task};
    ghost use Rattle.wh_state.specs.Commit.{TaskApplies, changed, CreatesTask, root_among};
    ghost use Rattle.wh_state.specs.Commit.{count_of_root, child_count};
    ghost use Rattle.wh_record.specs.View.{task_change_of};
    ghost use Rattle.wh_task.specs.View.{live_of, state_of};
    ghost use Rattle.wh_catalog.specs.TaskConditions.{applies_below, joins, is_of_root, has_room};
    ghost use Rattle.wh_catalog.specs.TaskConditions.{is_task_that, is_at_rest, state_applies};
    ghost use Rattle.wh_catalog.specs.TaskConditions.{starts, run_applies, may_go};
    ghost use Rattle.wh_catalog.specs.Undoable.{object_in};
    ghost use Rattle.wh_catalog.specs.Object.{kept_object, filed_in_kind};
    ghost use Rattle.wh_catalog.specs.Catalog.{objects_of};

    /// The task of a change, if it applies. Takes no memory.
    pub(crate) fn new_task(&self, change: TaskChange) -> Result<StoredObject, StageFault>
        ensures applies { OnOk result (TaskApplies (objects_of self.now)
            (task_change_of change)) }
        ensures made { IfOk result (λ made. (stamp : ℕ)
            → objects_of self.now ++ object_in (kept_object made) ∷ []
            ≡ changed stamp (objects_of self.now) (CreatesTask (task_change_of change))) }
        ensures named { IfOk result (λ made. made.name ≡ change.name) }
        ensures nothing { IfOk result (λ made. filed_in_kind (kept_object made).kind ≡ []) }
        ensures not_applicable { IsErrOf result StageFault.NotApplicable
            → TaskApplies (objects_of self.now) (task_change_of change) → ⊥ }
    {
        let root = self.root_among(change.id, &change.after);
        if !self.task_applies(&change, root) {
            return Err(StageFault::NotApplicable);
        }
        let task = Task {
            minutes: change.minutes,
            after: change.after,
            root,
            runs: change.runs,
            state: first_task_state(),
            run: Vec::new(self.alloc),
        };
        Ok(StoredObject {
            name: change.name,
            is_live: true,
            kind: StoredKind::Task(task),
        })
    }

    // The root of a new task behind others: that of the first, or itself.
    fn root_among(&self, id: u32, after: &[u32]) -> u32
        ensures { result ≡ root_among (objects_of self.now) id after.now }
    {
        match after {
            [] => id,
            [first, ..] => self.root_of(*first, id),
        }
    }

    // Whether a new task of that root applies.
    fn task_applies(&self, change: &TaskChange, root: u32) -> bool
        ensures { result ≡ applies_below (objects_of self.now) root (task_change_of change.now) }
    {
        self.is_new_object(change.id, &change.name)
            && is_scheduled(change.minutes, &change.after)
            && self.joins(root, &change.after)
    }

    // Whether the graph of a root takes one more task behind these.
    fn joins(&self, root: u32, after: &[u32]) -> bool
        ensures { result ≡ joins (objects_of self.now) root after.now }
    {
        after.len() as u64 <= Limit::Predecessors.bound()
            && self.are_of_root(root, after)
            && self.count_of_root(root) < Limit::GraphTasks.bound()
            && self.have_room(after)
    }

    fn are_of_root(&self, root: u32, ids: &[u32]) -> bool
        ensures { result ≡ list_all (is_of_root (objects_of self.now) root) ids.now }
    {
        ids.iter().all(|id| self.is_of_root(root, *id))
    }

    // Whether the object of an id is a live task of the graph of that root.
    fn is_of_root(&self, root: u32, id: u32) -> bool
        ensures { result ≡ is_of_root (objects_of self.now) root id }
    {
        match self.live_task(id) {
            Some(task) => task.root == root,
            None => false,
        }
    }

    fn have_room(&self, after: &[u32]) -> bool
        ensures { result ≡ list_all (has_room (objects_of self.now)) after.now }
    {
        after.iter().all(|id| self.has_room(*id))
    }

    fn has_room(&self, id: u32) -> bool
        ensures { result ≡ has_room (objects_of self.now) id }
    {
        self.child_count(id) < Limit::Children.bound()
    }

    /// How many live tasks have that root.
    pub fn count_of_root(&self, root: u32) -> u64
        ensures { result ≡ count_of_root (objects_of self.now) root }
    {
        count_of_root(&self.objects, root)
    }

    /// How many live tasks follow one.
    pub fn child_count(&self, parent: u32) -> u64
        ensures { result ≡ child_count (objects_of self.now) parent }
    {
        child_count(&self.objects, parent)
    }

    /// Whether a task takes a state.
    pub(crate) fn state_applies(&self, id: u32, state: TaskState) -> bool
        ensures { result ≡ state_applies (at_id (objects_of self.now) id) (state_of state) }
    {
        match self.live_task(id) {
            Some(_) => state.failures <= MOST_FAILURES,
            None => false,
        }
    }

    /// Whether a run of a root with these tasks may begin.
    pub(crate) fn run_applies(&self, root: u32, tasks: &[u32]) -> bool
        ensures { result ≡ run_applies (objects_of self.now) root tasks.now }
    {
        self.starts(root) && tasks.contains(&root) && self.are_of_root(root, tasks)
    }

    // Whether an object is a live root whose run isn't under way.
    fn starts(&self, root: u32) -> bool
        ensures { result ≡ is_task_that (starts root) (at_id (objects_of self.now) root) }
    {
        match self.live_task(root) {
            Some(task) => task.root == root && !is_under_way(&task.run),
            None => false,
        }
    }

    /// Whether an object is no task, or one that may be dropped.
    pub(crate) fn may_go(&self, id: u32) -> bool
        ensures { result ≡ may_go (objects_of self.now) id }
    {
        match self.task(id) {
            Some(task) => self.child_count(id) == 0 && self.is_at_rest(task.root),
            None => true,
        }
    }

    // Whether an object is a live task without a run that is under way.
    fn is_at_rest(&self, id: u32) -> bool
        ensures { result ≡ is_task_that is_at_rest (at_id (objects_of self.now) id) }
    {
        match self.live_task(id) {
            Some(task) => !is_under_way(&task.run),
            None => false,
        }
    }

    /// The task of an id, if it lives.
    pub(crate) fn live_task(&self, id: u32) -> Option<&Task>
        ensures { live_of result ≡ option_and_then live_task (at_id (objects_of self.now) id) }
    {
        let object = self.object(id)?;
        object.live_task()
    }

    // The root of the task of an id, or another id where there is none.
    fn root_of(&self, id: u32, other: u32) -> u32
        ensures { result ≡ option_map_or (λ t. t.root) (task_at (objects_of self.now) id) other }
    {
        match self.task(id) {
            Some(task) => task.root,
            None => other,
        }
    }
}

impl StoredObject {
    ghost use Rattle.std.specs.Prelude.{◌≡◌, nat_eq};
    ghost use Rattle.wh_state.specs.Commit.{is_member};
    ghost use Rattle.wh_state.specs.Edits.{is_among};
    ghost use Rattle.wh_catalog.specs.Undoable.{object_in};
    ghost use Rattle.wh_catalog.specs.Object.{kept_object};

    // Whether it is a live task of the graph of that root.
    fn has_root(&self, root: u32) -> bool
        ensures { result ≡ is_member (λ t. nat_eq t.root root) (object_in (kept_object self.now)) }
    {
        match self.live_task() {
            Some(task) => task.root == root,
            None => false,
        }
    }

    // Whether it is a live task that follows that one.
    fn follows(&self, parent: u32) -> bool
        ensures { result ≡ is_member (λ t. is_among parent t.after)
            (object_in (kept_object self.now)) }
    {
        match self.live_task() {
            Some(task) => task.after.contains(&parent),
            None => false,
        }
    }
}

ghost use Rattle.std.specs.Prelude.{◌≡◌, nat_eq, count_by};
ghost use Rattle.wh_state.specs.Task as state;
ghost use Rattle.wh_state.specs.Commit.{is_member};
ghost use Rattle.wh_state.specs.Edits.{is_among};
ghost use Rattle.wh_catalog.specs.Undoable.{object_in};
ghost use Rattle.wh_catalog.specs.Object.{kept_object};
ghost use Rattle.wh_task.specs.View.{state_of};
ghost use Rattle.wh_catalog.specs.TaskConditions.{is_scheduled};

fn count_of_root(objects: &[StoredObject], root: u32) -> u64
    ensures { result ≡ count_by (λ o. is_member (λ t. nat_eq t.root root)
        (object_in (kept_object o))) objects.now }
{
    objects
        .iter()
        .filter(|object| object.has_root(root))
        .count() as u64
}

fn child_count(objects: &[StoredObject], parent: u32) -> u64
    ensures { result ≡ count_by (λ o. is_member (λ t. is_among parent t.after)
        (object_in (kept_object o))) objects.now }
{
    objects
        .iter()
        .filter(|object| object.follows(parent))
        .count() as u64
}

// Whether a schedule is within its limit, and stands on a root.
fn is_scheduled(minutes: u32, after: &[u32]) -> bool
    ensures { result ≡ is_scheduled minutes after.now }
{
    minutes as u64 <= Limit::MostSchedule.bound() && (after.is_empty() || minutes == 0)
}

// A task is made suspended.
fn first_task_state() -> TaskState
    ensures { state_of result ≡ state.first_task_state }
{
    TaskState {
        is_resumed: false,
        base: 0,
        last_start: 0,
        failures: 0,
    }
}

use crate::run::{TaskRun, is_under_way};
use crate::state::TaskState;
use sqlite_items::Boxed;
use wh_ast::{Dml, When};
use wh_value::Text;

/// What a task runs, and under which condition.
#[derive(Debug, Drop)]
pub struct TaskBody {
    pub when: Option<Boxed<When>>,
    pub body: Boxed<Dml>,
    /// The body as it was written.
    pub body_text: Text,
}

/// A task: what it runs, when, and behind which others.
#[derive(Debug, Drop)]
pub struct Task {
    /// 0 without a schedule.
    pub minutes: u32,
    /// The ids of its predecessors.
    pub after: Vec<u32>,
    /// Its root's id, its own where it has no predecessors.
    pub root: u32,
    pub runs: TaskBody,
    pub state: TaskState,
    /// On a root the last run, by rising ids.
    pub run: Vec<TaskRun>,
}

const MILLISECONDS_A_MINUTE: u64 = 60_000;

impl Task {
    ghost use Rattle.std.specs.Prelude.{◌≡◌};
    ghost use Rattle.wh_graph.specs.Root as root;
    ghost use Rattle.wh_task.specs.View.{task_of};

    /// Whether its schedule begins a run at a stamp.
    #[tactic(auto, unfolding(wh_graph::specs::Root::is_due))]
    pub fn is_due(&self, stamp: u64) -> bool
        ensures { result ≡ root.is_due stamp (task_of self.now) }
    {
        if !self.state.is_resumed || self.minutes == 0 || is_under_way(&self.run) {
            return false;
        }
        let point = point_at(self.state.base, self.minutes, stamp);
        self.state.base < point && self.state.last_start < point
    }
}

ghost use Rattle.std.specs.Prelude.{◌≡◌, ◌<◌};
ghost use Rattle.wh_graph.specs.Root as root;

// The last time of a schedule that isn't after a stamp.
fn point_at(base: u64, minutes: u32, stamp: u64) -> u64
    requires { 0 < minutes }
    ensures { result ≡ root.point_at base minutes stamp }
{
    let period = minutes as u64 * MILLISECONDS_A_MINUTE;
    base + stamp.saturating_sub(base) / period * period
}

/// What ALTER TASK and runs move of a task.
#[derive(Clone, Copy, Debug, PartialEq, Eq)]
pub struct TaskState {
    pub is_resumed: bool,
    /// The stamp of the last RESUME of a root, from which its schedule counts.
    pub base: u64,
    /// The stamp of the last run that the schedule began.
    pub last_start: u64,
    /// The runs that failed in a row, at most 10.
    pub failures: u32,
}

const MOST_FAILURES: u32 = 10;

impl TaskState {
    ghost use Rattle.std.specs.Prelude.{◌≡◌};
    ghost use Rattle.wh_graph.specs.Root as root;
    ghost use Rattle.wh_task.specs.View.{state_of};

    /// A root's state behind a run that ended. The tenth failed run in a row suspends it.
    #[tactic(auto, unfolding(wh_graph::specs::Root::state_behind))]
    pub fn behind(self, has_failed: bool) -> TaskState
        ensures { state_of result ≡ root.state_behind has_failed (state_of self) }
    {
        if !has_failed {
            return TaskState {
                failures: 0,
                ..self
            };
        }
        if self.failures >= MOST_FAILURES {
            return self;
        }
        TaskState {
            is_resumed: self.is_resumed && !self.is_tenth(true),
            failures: self.failures + 1,
            ..self
        }
    }

    /// Whether a run that ended so is the tenth that failed in a row.
    pub fn is_tenth(self, has_failed: bool) -> bool
        ensures { result ≡ root.is_tenth has_failed (state_of self) }
    {
        has_failed && self.failures == MOST_FAILURES - 1
    }
}

/// How a task of a run ended.
#[derive(Clone, Copy, Debug, PartialEq, Eq)]
pub enum Ending {
    Succeeded,
    Failed,
    Skipped,
}

/// A task in a run: it waits until it has ended.
#[derive(Clone, Copy, Debug)]
pub struct TaskRun {
    pub task: u32,
    pub ending: Option<Ending>,
}

impl TaskRun {
    ghost use Rattle.std.specs.Prelude.{◌≡◌};
    ghost use Rattle.wh_graph.specs.Graph as graph;
    ghost use Rattle.wh_task.specs.View.{task_run_of};

    pub fn is_waiting(&self) -> bool
        ensures { result ≡ graph.is_waiting (task_run_of self.now) }
    {
        self.ending.is_none()
    }
}

ghost use Rattle.std.specs.Prelude.{◌≡◌, map};
ghost use Rattle.wh_graph.specs.Graph as graph;
ghost use Rattle.wh_task.specs.View.{run_of, task_run_of};

/// Whether a task of the run waits.
pub fn is_under_way(run: &[TaskRun]) -> bool
    ensures { result ≡ graph.is_under_way (run_of run.now) }
{
    for task in run {
        if task.is_waiting() {
            return true;
        }
    }
    false
}

/// Whether a task of the run failed.
pub fn has_failed(run: &[TaskRun]) -> bool
    ensures { result ≡ graph.has_failed (run_of run.now) }
{
    for task in run {
        if let Some(Ending::Failed) = task.ending {
            return true;
        }
    }
    false
}

// Whether each of some tasks that is in the run has succeeded.
pub(crate) fn are_done(run: &[TaskRun], after: &[u32]) -> bool
    ensures { result ≡ graph.are_done (run_of run.now) after.now }
{
    for task in run {
        if !is_done(task, after) {
            return false;
        }
    }
    true
}

// A task of the run that isn't among them, or has succeeded.
fn is_done(task: &TaskRun, after: &[u32]) -> bool
    ensures { result ≡ graph.is_done after.now (task_run_of task.now) }
{
    !after.contains(&task.task) || matches!(task.ending, Some(Ending::Succeeded))
}

//! A task of a model, in a run of it.
ghost use Rattle.std.specs.Prelude.{◌≡◌, length};
ghost use Rattle.cl_model.specs.ByNumber.{task_at, deadline_of};
ghost use Rattle.cl_runs.specs.Run.{jobs_of};
ghost use Rattle.cl_draw.specs.Inner.TaskRuns.{IsTaskRun};

use cl_model::{RunnableDef, ValidModel};
use cl_run_data::RunData;
use cl_runs::Job;

/// A task of a model, in a run of it.
#[derive(Clone, Copy)]
pub(crate) struct TaskRun<'a> {
    pub(crate) model: &'a ValidModel,
    pub(crate) run: &'a RunData,
    pub(crate) task: u32,
}

impl<'a> TaskRun<'a> {
    /// Returns the jobs of the task.
    pub(crate) fn jobs(self) -> &'a [Job]
        requires { IsTaskRun self.model.now self.run.now self.task }
        ensures { result.now ≡ jobs_of self.entry.run.now self.entry.task }
    {
        self.run.table().jobs_of(self.task)
    }

    /// Returns the deadline of the task, from arrival.
    pub(crate) fn deadline(self) -> u64
        requires { IsTaskRun self.model.now self.run.now self.task }
        ensures { result ≡ deadline_of self.entry.model.now self.entry.task }
    {
        self.model.deadline_of(self.task)
    }

    /// Returns the runnables of the task.
    pub(crate) fn runnables(self) -> &'a [RunnableDef]
        requires { IsTaskRun self.model.now self.run.now self.task }
        ensures { result.now ≡ (task_at self.entry.model.now self.entry.task).runnables }
    {
        self.model.task(self.task).runnables.as_slice()
    }

    /// Returns the number of ticks of the run.
    pub(crate) fn ticks(self) -> u64
        ensures { result ≡ self.entry.run.now.table.ticks }
    {
        self.run.table().ticks
    }
}

//! Where a task stands in the work of its jobs. Times are in ticks.
ghost use Rattle.std.specs.Prelude.{◌≡◌, ◌≢◌, ℕ, ◌+◌, ◌<◌, ◌≤◌, length};
ghost use Rattle.cl_model.specs.ByNumber.{task_at};
ghost use Rattle.cl_runs.specs.{Run.{jobs_of, executed}, SystemOf.system_of};
ghost use Rattle.cl_draw.specs.Inner.{TaskRuns.IsTaskRun, Cursors.{time_at, StandsAt, FinishesJob}};

use crate::task_run::TaskRun;

/// The runnable of a job with which a task goes on, and how long it still executes: 0 where no job
/// is left.
#[derive(Clone, Copy, PartialEq, Eq)]
pub(crate) struct Cursor {
    pub(crate) job: usize,
    pub(crate) place: usize,
    pub(crate) left: u64,
}

/// Returns the execution time of a runnable of a job, or 0 where there is none.
fn time_at(of: TaskRun<'_>, job: usize, place: usize) -> u64
    requires { IsTaskRun of.model.now of.run.now of.task }
    ensures { result ≡ time_at (jobs_of of.entry.run.now of.entry.task) job place }
{
    let jobs = of.jobs();
    if job < jobs.len() {
        let times = jobs[job].times.as_slice();
        if place < times.len() { times[place] } else { 0 }
    } else {
        0
    }
}

impl Cursor {
    /// Returns the cursor at the beginning of a runnable.
    fn at(of: TaskRun<'_>, job: usize, place: usize) -> Cursor
        requires { IsTaskRun of.model.now of.run.now of.task }
        ensures job { result.job ≡ job }
        ensures place { result.place ≡ place }
        ensures left { result.left ≡ time_at (jobs_of of.entry.run.now of.entry.task) job place }
    {
        Cursor {
            job,
            place,
            left: time_at(of, job, place),
        }
    }

    /// Returns the cursor at the beginning of the first job.
    pub(crate) fn start(of: TaskRun<'_>) -> Cursor
        requires { IsTaskRun of.model.now of.run.now of.task }
        ensures first { result.job ≡ 0 }
        ensures stands { StandsAt (system_of of.entry.model.now) of.entry.run.now of.entry.task result 0 }
    {
        Cursor::at(of, 0, 0)
    }

    /// Returns the cursor after `ticks` further ticks of the runnable, which still executes at
    /// least that long.
    pub(crate) fn after(self, of: TaskRun<'_>, ticks: u64) -> Cursor
        requires of { IsTaskRun of.model.now of.run.now of.task }
        requires some { 0 < ticks }
        requires within { ticks ≤ self.left }
        requires in_table { self.job < length (jobs_of of.run.now of.task) }
        requires is_runnable { self.place < length (task_at of.model.now of.task).runnables }
        ensures stands { (tick : ℕ) → StandsAt (system_of of.entry.model.now) of.entry.run.now of.entry.task self tick
            → executed (system_of of.entry.model.now) of.entry.run.now of.entry.task (tick + ticks)
            ≡ executed (system_of of.entry.model.now) of.entry.run.now of.entry.task tick + ticks
            → StandsAt (system_of of.entry.model.now) of.entry.run.now of.entry.task result
            (tick + ticks) }
        ensures finishes { result.job ≢ self.job
            → FinishesJob (system_of of.entry.model.now) of.entry.task self ticks result }
        ensures cut { self.left ≡ ticks → result.job ≡ self.job → result.place ≢ self.place }
    {
        if ticks < self.left {
            return Cursor {
                job: self.job,
                place: self.place,
                left: self.left - ticks,
            };
        }
        let jobs = of.jobs().len();
        let runnables = of.runnables().len();
        prove!(self.job < jobs);
        prove!(self.place < runnables);
        if self.place + 1 < runnables {
            Cursor::at(of, self.job, self.place + 1)
        } else {
            Cursor::at(of, self.job + 1, 0)
        }
    }
}

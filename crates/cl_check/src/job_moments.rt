//! When the jobs of a task start and finish. Times are in ticks.
ghost use Rattle.std.specs.Prelude.{◌≡◌, ◌+◌, ◌-◌, ◌^◌, ◌<◌, ◌≤◌, length, sum, min, slice_index, All, IfOk};
ghost use Rattle.cl_model.specs.ByNumber.{task_at};
ghost use Rattle.cl_runs.specs.{declared.job.Job.Job, SystemOf.system_of, Run.{IsInForm, jobs_of}};
ghost use Rattle.cl_run_data.specs.Stretches.{entries_from, AreLongest};
ghost use Rattle.cl_check.specs.{InOrder.AreTimesPositive, JobMoments.{IsMomentOf, AreMoments}, Inner.Walks.{RunsAfter, EndsAfter, StandsIn, AreMomentsIn}};

use crate::walk::Walk;
use cl_model::{List, ValidModel};
use cl_run_data::{RunData, Stretch};
use cl_runs::Job;
use cl_time::NoMemory;
use std::alloc::Global;

/// When a runnable of a job starts and finishes, in ticks.
#[derive(Clone, Copy, PartialEq, Eq)]
pub struct Moment {
    /// When it starts, or `None` where it doesn't start below the end of the run.
    pub start: Option<u64>,
    /// When it has finished, or `None` where it hasn't at the end of the run.
    pub finish: Option<u64>,
}

/// Adds further times to a time. Returns the greatest `u64` where the sum is greater.
pub(crate) fn time_after(done: u64, times: &[u64]) -> u64
    ensures { result ≡ min (done + sum times.now) (2 ^ 64 - 1) }
{
    let mut total = done;
    for time in times {
        total = total.saturating_add(*time);
    }
    total
}

/// Finds when a runnable starts and finishes that takes `own` ticks after `before` ticks of work of
/// its task.
fn moment_of(walk: &mut Walk, stretches: &[Stretch], task: u32, before: u64, own: u64) -> Moment
    requires longest { AreLongest 0 stretches.now }
    requires fits { length (entries_from 0 stretches.now) < 2 ^ 64 }
    requires stands { StandsIn stretches.now task walk.old }
    requires ahead { walk.old.executed ≤ before }
    requires some_time { 1 ≤ own }
    ensures stands { StandsIn stretches.now task walk.new }
    ensures ahead { walk.new.executed ≤ min (before + (own - 1)) (2 ^ 64 - 1) }
    ensures start { IsMomentOf (RunsAfter (entries_from 0 stretches.now) task before) result.start }
    ensures finish { IsMomentOf (EndsAfter (entries_from 0 stretches.now) task (min (before + (own - 1)) (2 ^ 64 - 1))) result.finish }
{
    let start = walk.seek(stretches, task, before);
    let last = walk.seek(stretches, task, before.saturating_add(own - 1));
    let finish = match last {
        Some(tick) => Some(tick + 1),
        None => None,
    };
    Moment { start, finish }
}

/// Finds when a runnable of a task starts and finishes in each job, in one walk over the stretches
/// of its core.
fn moments_in(
    alloc: Global,
    stretches: &[Stretch],
    jobs: &[Job],
    task: u32,
    place: usize,
) -> Result<List<Moment>, NoMemory>
    requires longest { AreLongest 0 stretches.now }
    requires fits { length (entries_from 0 stretches.now) < 2 ^ 64 }
    requires places { All (λ job. place < length job.times) jobs.now }
    requires times { All (λ job. 1 ≤ slice_index job.times place) jobs.now }
    ensures { IfOk result (λ moments.
        (length moments ≡ length jobs.now)
        × AreMomentsIn (entries_from 0 stretches.now) jobs.now task place moments) }
{
    let mut moments = List::with_room(alloc, jobs.len())?;
    let mut walk = Walk::new();
    let mut done = 0;
    for job in jobs {
        let times = job.times.as_slice();
        let before = time_after(done, &times[..place]);
        moments.push(moment_of(&mut walk, stretches, task, before, times[place]))?;
        done = time_after(done, times);
    }
    Ok(moments)
}

/// Finds when a runnable of a task starts and finishes in each job: one entry for each job, in the
/// order of the jobs.
///
/// The run is in form, and each execution time of the task's jobs is 1 tick or more. It need not be
/// legal. An entry has no start exactly where the runnable doesn't start below the end of the run,
/// and no finish exactly where it hasn't finished at the end. `NoMemory` comes where there is no
/// memory for the entries; it leaves nothing. Takes time linear in the stretches of the core and
/// the execution times of the task's jobs, whatever the number of ticks.
pub fn moments(
    alloc: Global,
    model: &ValidModel,
    run: &RunData,
    task: u32,
    place: u32,
) -> Result<List<Moment>, NoMemory>
    requires is_task { task < length model.now.tasks }
    requires is_runnable { place < length (task_at model.now task).runnables }
    requires in_form { IsInForm (system_of model.now) run.now }
    requires times { AreTimesPositive (jobs_of run.now task) }
    ensures { IfOk result (AreMoments (system_of model.now) run.now task place) }
{
    let runnables = model.task(task).runnables.len();
    prove!((place as usize) < runnables);
    let table = run.table();
    // read for its range: the core's entries are as many as the ticks
    let _ticks = table.ticks;
    let stretches = run.stretches(model.core_of(task));
    moments_in(alloc, stretches, table.jobs_of(task), task, place as usize)
}

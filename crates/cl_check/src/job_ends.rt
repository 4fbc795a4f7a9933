//! When the jobs of a task start, or finish, by the list of the task. Times are in ticks.
ghost use Rattle.std.specs.Prelude.{◌≡◌, ◌-◌, ◌^◌, ◌+◌, ◌<◌, ◌≤◌, length, min, slice_index, All, IfOk};
ghost use Rattle.cl_model.specs.ByNumber.{task_at};
ghost use Rattle.cl_runs.specs.{declared.job.Job.Job, SystemOf.system_of, Run.{IsInForm, jobs_of}};
ghost use Rattle.cl_run_data.specs.Stretches.{entries_from, AreLongest};
ghost use Rattle.cl_check.specs.{Apart.StandApart, InOrder.AreTimesPositive, JobMoments.{IsMomentOf, AreEndsOfJobs}, Inner.Walks.{IsEndAfter, StandsIn, AreEndsIn}};

use crate::job_moments::time_after;
use crate::walk::Walk;
use cl_model::{List, ValidModel};
use cl_run_data::{RunData, Stretch};
use cl_runs::Job;
use cl_time::NoMemory;
use std::alloc::Global;

/// Which end of the execution of a runnable is asked for.
#[derive(Clone, Copy, PartialEq, Eq)]
pub enum End {
    /// When it starts.
    Start,
    /// When it has finished.
    Finish,
}

/// Finds when a runnable starts, or finishes, that takes `own` ticks after `before` ticks of work
/// of its task.
fn end_after(
    walk: &mut Walk,
    stretches: &[Stretch],
    task: u32,
    end: End,
    before: u64,
    own: u64,
) -> Option<u64>
    requires longest { AreLongest 0 stretches.now }
    requires fits { length (entries_from 0 stretches.now) < 2 ^ 64 }
    requires stands { StandsIn stretches.now task walk.old }
    requires ahead { walk.old.executed ≤ before }
    requires some_time { 1 ≤ own }
    ensures stands { StandsIn stretches.now task walk.new }
    ensures ahead { walk.new.executed ≤ min (before + (own - 1)) (2 ^ 64 - 1) }
    ensures end { IsMomentOf (IsEndAfter end (entries_from 0 stretches.now) task before own) result }
{
    match end {
        End::Start => walk.seek(stretches, task, before),
        End::Finish => {
            let last = walk.seek(stretches, task, before.saturating_add(own - 1))?;
            Some(last + 1)
        }
    }
}

/// Finds when a runnable of a task starts, or finishes, in each job, in one walk over the stretches
/// of the list of the task.
fn ends_in(
    alloc: Global,
    stretches: &[Stretch],
    jobs: &[Job],
    task: u32,
    place: usize,
    end: End,
) -> Result<List<Option<u64>>, NoMemory>
    requires longest { AreLongest 0 stretches.now }
    requires fits { length (entries_from 0 stretches.now) < 2 ^ 64 }
    requires places { All (λ job. place < length job.times) jobs.now }
    requires times { All (λ job. 1 ≤ slice_index job.times place) jobs.now }
    ensures { IfOk result (λ ends.
        (length ends ≡ length jobs.now) × AreEndsIn end (entries_from 0 stretches.now) jobs.now task place ends) }
{
    let mut ends = List::with_room(alloc, jobs.len())?;
    let mut walk = Walk::new();
    let mut done = 0;
    for job in jobs {
        let times = job.times.as_slice();
        let before = time_after(done, &times[..place]);
        ends.push(end_after(&mut walk, stretches, task, end, before, times[place]))?;
        done = time_after(done, times);
    }
    Ok(ends)
}

/// Finds when a runnable of a task starts, or finishes, in each job: one entry for each job, in the
/// order of the jobs. `apart` has a list of entries for each task, as `tasks_apart` returns it.
///
/// The run is in form, and each execution time of the task's jobs is 1 tick or more. It need not be
/// legal. An entry is `None` exactly where the runnable doesn't start below the end of the run, or
/// hasn't finished at the end. `NoMemory` comes where there is no memory for the entries; it leaves
/// nothing. Takes time linear in the stretches of the task's list and the execution times of its
/// jobs.
pub fn ends_apart(
    alloc: Global,
    model: &ValidModel,
    run: &RunData,
    apart: &RunData,
    task: u32,
    place: u32,
    end: End,
) -> Result<List<Option<u64>>, NoMemory>
    requires is_task { task < length model.now.tasks }
    requires is_runnable { place < length (task_at model.now task).runnables }
    requires in_form { IsInForm (system_of model.now) run.now }
    requires times { AreTimesPositive (jobs_of run.now task) }
    requires apart { StandApart (system_of model.now) run.now apart.now }
    ensures { IfOk result (AreEndsOfJobs end (system_of model.now) run.now task place) }
{
    let runnables = model.task(task).runnables.len();
    prove!((place as usize) < runnables);
    let table = run.table();
    // read for its range: the task's entries are at most as many as the ticks
    let _ticks = table.ticks;
    let stretches = apart.stretches(task);
    ends_in(
        alloc,
        stretches,
        table.jobs_of(task),
        task,
        place as usize,
        end,
    )
}

//! Job tables from wishes: each wish is clamped to what is lawful, so the table is lawful whatever
//! is wished. Times are in ticks.
ghost use Rattle.std.specs.Prelude.{◌≡◌, ◌+◌, ◌<◌, ◌≤◌, true, false, [], length, map, All, IfOk};
ghost use Rattle.std.specs.List.{AllZip};
ghost use Rattle.cl_model.specs.{declared.task.RunnableDef.RunnableDef, Ranges.IsKindInRange, Timing.{IsKindOrdered, greatest_jitter}};
ghost use Rattle.cl_runs.specs.{declared.job.Job.Job, Arrivals.FollowPattern, TaskTiming.timing_at, SystemOf.{range_of, system_of}, Table.{LiesIn, AreLawfulJobs}};
ghost use Rattle.cl_run_data.specs.Parts.{is_among, IsLawfulOn, HasNoOtherJobs};
ghost use Rattle.cl_gen.specs.Inner.WishedTasks.{AreWishedOf};

use crate::limits::MOST_RUN_TICKS;
use crate::marks::is_among;
use crate::spans::{Span, first_span, gaps_after};
use cl_model::{List, MOST_RUNNABLES, RunnableDef, StimulusKind, ValidModel};
use cl_runs::{Job, JobTable, Times};
use cl_time::NoMemory;
use std::alloc::Global;

/// What is wished of the jobs of a model. Each wish is clamped to what is lawful.
pub trait Wishes {
    /// Returns the arrival that is wished of the next job of a task, which may arrive from `low` to
    /// `high`.
    fn arrival(&mut self, task: u32, low: u64, high: u64) -> u64;

    /// Returns the release that is wished of the job of a task that arrives at `arrival`.
    fn release(&mut self, task: u32, arrival: u64) -> u64;

    /// Returns the execution time that is wished of the runnable at index `place`, counted from 0,
    /// in the job of a task that arrives at `arrival`.
    fn time(&mut self, task: u32, arrival: u64, place: u32) -> u64;
}

/// Asks for the arrival of the next job of a task, which may arrive in a span.
fn wished_arrival<W: Wishes>(wishes: &mut W, task: u32, due: Span) -> u64
    requires { due.least ≤ due.greatest }
    ensures least { due.least ≤ result }
    ensures greatest { result ≤ due.greatest }
{
    due.clamp(wishes.arrival(task, due.least, due.greatest))
}

/// Asks for the execution time of each runnable of a job.
fn wished_times<W: Wishes>(
    alloc: Global,
    wishes: &mut W,
    task: u32,
    arrival: u64,
    runnables: &[RunnableDef],
) -> Result<Times, NoMemory>
    requires ordered { All
        (λ (runnable : RunnableDef). runnable.least ≤ runnable.greatest) runnables.now }
    requires count { length runnables.now ≤ MOST_RUNNABLES }
    ensures { IfOk result (AllZip LiesIn (map range_of runnables.now)) }
{
    let mut times = Times::new(alloc);
    for (place, runnable) in runnables.iter().enumerate() {
        let range = Span {
            least: runnable.least,
            greatest: runnable.greatest,
        };
        times.push(range.clamp(wishes.time(task, arrival, place as u32)))?;
    }
    Ok(times)
}

/// Asks for the release and the execution times of a job that arrives at a given tick.
fn wished_job<W: Wishes>(
    alloc: Global,
    wishes: &mut W,
    task: u32,
    pattern: StimulusKind,
    runnables: &[RunnableDef],
    arrival: u64,
) -> Result<Job, NoMemory>
    requires kind { IsKindInRange pattern }
    requires ordered { All
        (λ (runnable : RunnableDef). runnable.least ≤ runnable.greatest) runnables.now }
    requires count { length runnables.now ≤ MOST_RUNNABLES }
    requires early { arrival < MOST_RUN_TICKS }
    ensures arrives { IfOk result (λ job. job.arrival ≡ arrival) }
    ensures released { IfOk result (λ job. arrival ≤ job.release) }
    ensures in_jitter { IfOk result (λ job. job.release ≤ arrival + greatest_jitter pattern) }
    ensures times { IfOk result (λ job. AllZip LiesIn (map range_of runnables.now) job.times) }
{
    let releases = Span {
        least: arrival,
        greatest: arrival + pattern.greatest_jitter(),
    };
    let release = releases.clamp(wishes.release(task, arrival));
    let times = wished_times(alloc, wishes, task, arrival, runnables)?;
    Ok(Job {
        arrival,
        release,
        times,
    })
}

/// Asks for the jobs of a task that arrive in the first `ticks` ticks.
fn wished_jobs<W: Wishes>(
    alloc: Global,
    wishes: &mut W,
    task: u32,
    pattern: StimulusKind,
    runnables: &[RunnableDef],
    ticks: u64,
) -> Result<List<Job>, NoMemory>
    requires kind { IsKindInRange pattern }
    requires kind_ordered { IsKindOrdered pattern }
    requires ordered { All
        (λ (runnable : RunnableDef). runnable.least ≤ runnable.greatest) runnables.now }
    requires count { length runnables.now ≤ MOST_RUNNABLES }
    requires ticks { ticks ≤ MOST_RUN_TICKS }
    ensures arrivals { IfOk result (FollowPattern pattern ticks) }
    ensures times { IfOk result
        (All (λ (job : Job). AllZip LiesIn (map range_of runnables.now) job.times)) }
{
    let mut jobs = List::new(alloc);
    let mut arrival = wished_arrival(wishes, task, first_span(pattern));
    while arrival < ticks {
        let gaps = gaps_after(pattern, jobs.len() as u64);
        jobs.push(wished_job(alloc, wishes, task, pattern, runnables, arrival)?)?;
        let due = Span {
            least: arrival + gaps.least,
            greatest: arrival + gaps.greatest,
        };
        arrival = wished_arrival(wishes, task, due);
    }
    Ok(jobs)
}

/// Asks for the jobs of a task, given by its number, that arrive in the first `ticks` ticks.
fn wished_task<W: Wishes>(
    alloc: Global,
    wishes: &mut W,
    model: &ValidModel,
    task: u32,
    ticks: u64,
) -> Result<List<Job>, NoMemory>
    requires task { task < length model.now.tasks }
    requires ticks { ticks ≤ MOST_RUN_TICKS }
    ensures { IfOk result (AreLawfulJobs (timing_at (system_of model.now) task) ticks) }
{
    let runnables = model.task(task).runnables.as_slice();
    let pattern = model.stimulus_of(task);
    wished_jobs(alloc, wishes, task, pattern, runnables, ticks)
}

/// Asks for the jobs of a task if its core is among `cores`, and for none else.
fn task_jobs<W: Wishes>(
    alloc: Global,
    wishes: &mut W,
    model: &ValidModel,
    task: u32,
    ticks: u64,
    cores: &[bool],
) -> Result<List<Job>, NoMemory>
    requires task { task < length model.now.tasks }
    requires ticks { ticks ≤ MOST_RUN_TICKS }
    ensures { IfOk result (AreWishedOf (timing_at (system_of model.now) task) ticks cores.now) }
{
    if is_among(cores, model.core_of(task)) {
        return wished_task(alloc, wishes, model, task, ticks);
    }
    Ok(List::new(alloc))
}

/// Makes a job table of `ticks` ticks for a model from wishes, each of which is clamped to what is
/// lawful. The tasks of the cores that `cores` marks, by their numbers, have jobs, and the table is
/// lawful on these cores whatever is wished. Tasks of other cores have none. Times are in ticks.
///
/// The tasks are asked for in file order, and each one's jobs in the order of their arrivals: first
/// for the arrival, then for the release, then for the times. An arrival at `ticks` or later is the
/// last one that a task is asked for. After `NoMemory` the wishes may have been asked for some jobs.
pub fn wished_table<W: Wishes>(
    alloc: Global,
    model: &ValidModel,
    ticks: u64,
    cores: &[bool],
    wishes: &mut W,
) -> Result<JobTable, NoMemory>
    requires { ticks ≤ MOST_RUN_TICKS }
    ensures ticks { IfOk result (λ table. table.ticks ≡ ticks) }
    ensures lawful { IfOk result (IsLawfulOn (system_of model.now) cores.now) }
    ensures none { IfOk result (HasNoOtherJobs (system_of model.now) cores.now) }
{
    let mut jobs = List::new(alloc);
    for task in 0..model.tasks() {
        jobs.push(task_jobs(alloc, wishes, model, task, ticks, cores)?)?;
    }
    Ok(JobTable { ticks, jobs })
}

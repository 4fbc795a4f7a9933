//! Checking whether a job table is lawful. Times are in ticks.
ghost use Rattle.std.specs.Prelude.{◌≡◌, ◌<◌, ◌++◌, length, map};
ghost use Rattle.cl_model.specs.Validity.{IsValid};
ghost use Rattle.cl_runs.specs.{Pattern.IsPattern, SystemOf.{range_of, system_of}};
ghost use Rattle.cl_check.specs.{Legality.{are_in_range, arrival_faults, release_faults, job_faults, task_faults, faults_of_task, table_faults}, Inner.Finding.Finds};

use crate::interval::Interval;
use crate::run_fault::{Rule, RunFault};
use cl_model::{RunnableDef, StimulusKind, ValidModel};
use cl_runs::{Job, JobTable};

/// Checks whether there is one execution time for each runnable, and each lies in the range of its
/// runnable.
fn are_in_range(runnables: &[RunnableDef], times: &[u64]) -> bool
    ensures { result ≡ are_in_range (map range_of runnables.now) times.now }
{
    if runnables.len() != times.len() {
        return false;
    }
    for (place, time) in times.iter().enumerate() {
        let runnable = &runnables[place];
        if *time < runnable.least || *time > runnable.greatest {
            return false;
        }
    }
    true
}

/// Returns the fault that a job of a task breaks a rule, at the arrival of the job.
fn broken(rule: Rule, task: u32, job: &Job) -> RunFault
    ensures { result ≡ RunFault.Illegal rule task job.now.arrival }
{
    RunFault::Illegal {
        rule,
        place: task,
        tick: job.arrival,
    }
}

/// Checks whether a job arrives when it is due, and is released in time, or finds its first fault.
fn check_moments(
    kind: StimulusKind,
    ticks: u64,
    task: u32,
    due: Interval,
    job: &Job,
) -> Result<(), RunFault>
    ensures { Finds result
        (arrival_faults ticks task due.low due.high job.now ++ release_faults kind task job.now) }
{
    let arrival = u128::from(job.arrival);
    if arrival < due.low || arrival > due.high || job.arrival >= ticks {
        return Err(broken(Rule::Arrival, task, job));
    }
    if job.release < job.arrival || job.release - job.arrival > kind.greatest_jitter() {
        return Err(broken(Rule::Release, task, job));
    }
    Ok(())
}

/// Checks whether a job arrives when it is due, is released in time, and executes as long as its
/// runnables may, or finds its first fault.
fn check_job(
    kind: StimulusKind,
    runnables: &[RunnableDef],
    ticks: u64,
    task: u32,
    due: Interval,
    job: &Job,
) -> Result<(), RunFault>
    ensures { Finds result
        (job_faults kind (map range_of runnables.now) ticks task due.low due.high job.now) }
{
    check_moments(kind, ticks, task, due, job)?;
    if !are_in_range(runnables, job.times.as_slice()) {
        return Err(broken(Rule::Time, task, job));
    }
    Ok(())
}

/// Checks whether the jobs of a task follow its stimulus, or finds their first fault.
fn check_jobs(
    kind: StimulusKind,
    runnables: &[RunnableDef],
    ticks: u64,
    task: u32,
    jobs: &[Job],
) -> Result<(), RunFault>
    requires { IsPattern kind }
    ensures { Finds result (task_faults kind (map range_of runnables.now) ticks task jobs.now) }
{
    let mut due = Interval::first(kind);
    for (number, job) in jobs.iter().enumerate() {
        check_job(kind, runnables, ticks, task, due, job)?;
        due = Interval::after(kind, number as u64, job.arrival);
    }
    if due.high < u128::from(ticks) {
        return Err(RunFault::Illegal {
            rule: Rule::Missing,
            place: task,
            tick: due.high as u64,
        });
    }
    Ok(())
}

/// Checks the jobs of a task, given by its number, or finds their first fault.
fn check_task(model: &ValidModel, table: &JobTable, task: u32) -> Result<(), RunFault>
    requires task { task < length model.now.tasks }
    requires jobs { task < length table.now.jobs }
    ensures { Finds result (faults_of_task (system_of model.now) table.now task) }
{
    let runnables = model.task(task).runnables.as_slice();
    let jobs = table.jobs_of(task);
    check_jobs(model.stimulus_of(task), runnables, table.ticks, task, jobs)
}

/// Checks whether a job table is lawful. The only error is `Illegal`, with the first fault of the
/// table. Takes no memory.
pub fn check_table(model: &ValidModel, table: &JobTable) -> Result<(), RunFault>
    requires { length table.now.jobs ≡ length model.now.tasks }
    ensures finds { Finds result (table_faults (system_of model.now) table.now) }
    ensures valid { IsValid model.now }
{
    for task in 0..model.tasks() {
        check_task(model, table, task)?;
    }
    Ok(())
}

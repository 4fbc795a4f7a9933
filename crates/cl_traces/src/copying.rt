//! Copies of job tables.
ghost use Rattle.std.specs.Prelude.{◌≡◌, IfOk};

use cl_model::List;
use cl_runs::{Job, JobTable, Times};
use cl_time::NoMemory;
use std::alloc::Global;

fn copy_times(alloc: Global, times: &Times) -> Result<Times, NoMemory>
    ensures { IfOk result (λ copy. copy ≡ times.now) }
{
    let mut copy = Times::new(alloc);
    for time in times.as_slice() {
        copy.push(*time)?;
    }
    Ok(copy)
}

fn copy_job(alloc: Global, job: &Job) -> Result<Job, NoMemory>
    ensures { IfOk result (λ copy. copy ≡ job.now) }
{
    Ok(Job {
        arrival: job.arrival,
        release: job.release,
        times: copy_times(alloc, &job.times)?,
    })
}

fn copy_jobs(alloc: Global, jobs: &List<Job>) -> Result<List<Job>, NoMemory>
    ensures { IfOk result (λ copy. copy ≡ jobs.now) }
{
    let mut copy = List::with_room(alloc, jobs.len())?;
    for job in jobs.as_slice() {
        copy.push(copy_job(alloc, job)?)?;
    }
    Ok(copy)
}

/// Copies the jobs of all tasks.
fn copy_lists(alloc: Global, lists: &List<List<Job>>) -> Result<List<List<Job>>, NoMemory>
    ensures { IfOk result (λ copy. copy ≡ lists.now) }
{
    let mut copy = List::with_room(alloc, lists.len())?;
    for jobs in lists.as_slice() {
        copy.push(copy_jobs(alloc, jobs)?)?;
    }
    Ok(copy)
}

/// Copies a job table. `NoMemory` comes where there is no memory for the copy; it leaves nothing.
pub(crate) fn copy_table(alloc: Global, table: &JobTable) -> Result<JobTable, NoMemory>
    ensures { IfOk result (λ copy. copy ≡ table.now) }
{
    Ok(JobTable {
        ticks: table.ticks,
        jobs: copy_lists(alloc, &table.jobs)?,
    })
}

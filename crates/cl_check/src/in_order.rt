//! Checking whether a run is in order: whether its moments can be measured, be it legal or not.
ghost use Rattle.std.specs.Prelude.{◌↔◌, ◌≤◌, IsTrue, All};
ghost use Rattle.cl_runs.specs.{SystemOf.system_of, Run.IsInForm};
ghost use Rattle.cl_check.specs.InOrder.{AreTimesPositive, DoArrivalsRise, AreJobsInOrder, IsRunInOrder};

use cl_model::ValidModel;
use cl_run_data::RunData;
use cl_runs::Job;

/// Checks whether each execution time of a job is 1 tick or more.
fn takes_time(times: &[u64]) -> bool
    ensures { IsTrue result ↔ All (λ time. 1 ≤ time) times.now }
{
    for time in times {
        if *time < 1 {
            return false;
        }
    }
    true
}

/// Checks whether each execution time of some jobs is 1 tick or more.
fn all_take_time(jobs: &[Job]) -> bool
    ensures { IsTrue result ↔ AreTimesPositive jobs.now }
{
    for job in jobs {
        if !takes_time(job.times.as_slice()) {
            return false;
        }
    }
    true
}

/// Checks whether each job arrives before the next one.
fn arrivals_rise(jobs: &[Job]) -> bool
    ensures { IsTrue result ↔ DoArrivalsRise jobs.now }
{
    for next in 1..jobs.len() {
        if jobs[next].arrival <= jobs[next - 1].arrival {
            return false;
        }
    }
    true
}

/// Checks whether the jobs of a task are in order.
fn are_jobs_in_order(jobs: &[Job]) -> bool
    ensures { IsTrue result ↔ AreJobsInOrder jobs.now }
{
    all_take_time(jobs) && arrivals_rise(jobs)
}

/// Checks whether a run is in order: each execution time is 1 tick or more, and the jobs of each
/// task arrive one after the other. Then its moments and job chains can be measured, even if it
/// isn't legal; a legal run is in order.
///
/// The run is in form. Takes time linear in the execution times of its jobs.
pub fn is_in_order(model: &ValidModel, run: &RunData) -> bool
    requires { IsInForm (system_of model.now) run.now }
    ensures { IsTrue result ↔ IsRunInOrder (system_of model.now) run.now }
{
    let table = run.table();
    for task in 0..model.tasks() {
        if !are_jobs_in_order(table.jobs_of(task)) {
            return false;
        }
    }
    true
}

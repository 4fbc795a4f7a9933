//! What a run shows of a task: jobs that miss their deadlines, responses, jitters and times. Times
//! are in ticks.
ghost use Rattle.std.specs.Prelude.{◌≡◌, pos, ◌-ℤ◌, ◌-◌, ◌+◌, ◌<◌, length, All, IfOk};
ghost use Rattle.cl_model.specs.ByNumber.{task_at};
ghost use Rattle.cl_runs.specs.{declared.job.Job.Job, SystemOf.system_of, Run.IsInForm};
ghost use Rattle.cl_check.specs.{Apart.StandApart, InOrder.IsRunInOrder};
ghost use Rattle.cl_observe.specs.{Values.{CountsBelow, IsGreatestResponseOf, IsSpreadOf}, Shown.{IsShownTask, IsShownTime}, Inner.{Choices.{or_number, or_finish, or_time}, JobLists.{AreFinishTimes, is_unfinished, IsJobUnfinished, HasListedResponse, HasListedJitter, HasListedTime}}};

use crate::values::{GreatestResponse, Spread, or_number, or_response, since};
use cl_check::{End, ends_apart};
use cl_model::{List, ValidModel};
use cl_run_data::RunData;
use cl_runs::Job;
use cl_time::NoMemory;
use std::alloc::Global;

/// What a run shows of a task.
#[derive(Clone, Copy, PartialEq, Eq)]
pub(crate) struct ShownTask {
    /// How many jobs haven't finished by their deadlines, and the run lasts until then.
    pub(crate) misses: u64,
    /// The greatest response of the jobs that have finished.
    pub(crate) response: Option<GreatestResponse>,
    /// The least and the greatest time from the arrival of a job to its release.
    pub(crate) jitter: Option<Spread>,
}

/// Checks whether a job misses a deadline so many ticks after its arrival, in a run that lasts
/// until then.
fn misses(arrival: u64, finish: Option<u64>, deadline: u64, ticks: u64) -> bool
    ensures { result ≡ is_unfinished (arrival + deadline) ticks finish }
{
    let due = u128::from(arrival) + u128::from(deadline);
    if u128::from(ticks) < due {
        return false;
    }
    match finish {
        None => true,
        Some(finish) => due < u128::from(finish),
    }
}

/// Counts the jobs that miss a deadline so many ticks after their arrivals, by the list of their
/// finishes.
fn count_misses(jobs: &[Job], finishes: &[Option<u64>], deadline: u64, ticks: u64) -> u64
    requires { length finishes.now ≡ length jobs.now }
    ensures { CountsBelow (IsJobUnfinished jobs.now finishes.now deadline ticks) (length jobs.now) result }
{
    let mut count = 0;
    for place in 0..finishes.len() {
        let missed = misses(jobs[place].arrival, finishes[place], deadline, ticks);
        count += u64::from(missed);
    }
    count
}

/// Returns the greater of the greatest response of the jobs before one, if they have any, and that
/// of this job, if it has finished.
fn or_finish(
    found: Option<GreatestResponse>,
    job: u64,
    arrival: u64,
    finish: Option<u64>,
) -> Option<GreatestResponse>
    ensures { result ≡ or_finish found job arrival finish }
{
    match finish {
        None => found,
        Some(finish) => Some(or_response(found, job, since(arrival, finish))),
    }
}

/// Finds the greatest response of some jobs, by the list of their finishes.
fn greatest_response(jobs: &[Job], finishes: &[Option<u64>]) -> Option<GreatestResponse>
    requires { length finishes.now ≡ length jobs.now }
    ensures { IsGreatestResponseOf (HasListedResponse jobs.now finishes.now) result }
{
    let mut greatest = None;
    for place in 0..finishes.len() {
        let arrival = jobs[place].arrival;
        greatest = or_finish(greatest, place as u64, arrival, finishes[place]);
    }
    greatest
}

/// Returns the least and the greatest of some times from arrivals to releases, if there are any,
/// and of that of one more job.
fn or_jitter(found: Option<Spread>, arrival: u64, release: u64) -> Spread
    ensures { result ≡ or_number found (pos release -ℤ pos arrival) }
{
    or_number(found, since(arrival, release))
}

/// Finds the least and the greatest time from the arrival of a job to its release.
fn jitters(jobs: &[Job]) -> Option<Spread>
    ensures { IsSpreadOf (HasListedJitter jobs.now) result }
{
    let mut spread = None;
    for place in 0..jobs.len() {
        let job = &jobs[place];
        spread = Some(or_jitter(spread, job.arrival, job.release));
    }
    spread
}

/// Returns the least and the greatest of some times, if there are any, and of that of one more job,
/// if the runnable has finished in it.
fn or_time(found: Option<Spread>, time: u64, finish: Option<u64>) -> Option<Spread>
    ensures { result ≡ or_time found time finish }
{
    match finish {
        None => found,
        Some(_) => Some(or_number(found, i128::from(time))),
    }
}

/// Finds the least and the greatest time of a runnable in the jobs in which it has finished, by the
/// list of its finishes.
fn times(jobs: &[Job], finishes: &[Option<u64>], place: usize) -> Option<Spread>
    requires as_many { length finishes.now ≡ length jobs.now }
    requires places { All (λ job. place < length job.times) jobs.now }
    ensures { IsSpreadOf (HasListedTime jobs.now finishes.now place) result }
{
    let mut spread = None;
    for job in 0..finishes.len() {
        let time = jobs[job].times.as_slice()[place];
        spread = or_time(spread, time, finishes[job]);
    }
    spread
}

/// Finds when the jobs of a task finish in a run in order. `apart` has a list of entries for each
/// task, as `tasks_apart` returns it.
///
/// `NoMemory` comes where there is no memory for the finishes; it leaves nothing.
pub(crate) fn finishes(
    alloc: Global,
    model: &ValidModel,
    run: &RunData,
    apart: &RunData,
    task: u32,
) -> Result<List<Option<u64>>, NoMemory>
    requires task { task < length model.now.tasks }
    requires in_form { IsInForm (system_of model.now) run.now }
    requires in_order { IsRunInOrder (system_of model.now) run.now }
    requires apart { StandApart (system_of model.now) run.now apart.now }
    ensures { IfOk result (AreFinishTimes (system_of model.now) run.now task) }
{
    let runnables = model.task(task).runnables.len();
    let last = runnables as u32 - 1;
    ends_apart(alloc, model, run, apart, task, last, End::Finish)
}

/// Finds what a run shows of a task whose jobs finish as this list says.
pub(crate) fn shown_task(
    model: &ValidModel,
    run: &RunData,
    task: u32,
    finishes: &[Option<u64>],
) -> ShownTask
    requires task { task < length model.now.tasks }
    requires in_form { IsInForm (system_of model.now) run.now }
    requires finishes { AreFinishTimes (system_of model.now) run.now task finishes.now }
    ensures { IsShownTask (system_of model.now) run.now task result }
{
    let table = run.table();
    let jobs = table.jobs_of(task);
    let deadline = model.deadline_of(task);
    ShownTask {
        misses: count_misses(jobs, finishes, deadline, table.ticks),
        response: greatest_response(jobs, finishes),
        jitter: jitters(jobs),
    }
}

/// Finds the least and the greatest time of a runnable of a task, in the jobs of a run in order in
/// which it has finished. The jobs finish as the list says, and so does their last runnable.
///
/// `NoMemory` comes where there is no memory for its finishes; it leaves nothing.
pub(crate) fn shown_time(
    alloc: Global,
    model: &ValidModel,
    run: &RunData,
    apart: &RunData,
    task: u32,
    place: u32,
    finishes: &[Option<u64>],
) -> Result<Option<Spread>, NoMemory>
    requires task { task < length model.now.tasks }
    requires place { place < length (task_at model.now task).runnables }
    requires in_form { IsInForm (system_of model.now) run.now }
    requires in_order { IsRunInOrder (system_of model.now) run.now }
    requires apart { StandApart (system_of model.now) run.now apart.now }
    requires finishes { AreFinishTimes (system_of model.now) run.now task finishes.now }
    ensures { IfOk result (IsShownTime (system_of model.now) run.now task place) }
{
    let jobs = run.table().jobs_of(task);
    let runnables = model.task(task).runnables.len();
    if place as usize + 1 == runnables {
        return Ok(times(jobs, finishes, place as usize));
    }
    let own = ends_apart(alloc, model, run, apart, task, place, End::Finish)?;
    Ok(times(jobs, own.as_slice(), place as usize))
}

//! What a task does in a run that comes near to its response. Times are in ticks.
ghost use Rattle.std.specs.Prelude.{◌≡◌, ℕ, ◌⊎◌, ◌+◌, ◌-◌, ◌<◌, ◌≤◌, true, length, IfOk};
ghost use Rattle.cl_gen.specs.declared.limits.TheConstants.{MOST_RUN_TICKS};
ghost use Rattle.cl_runs.specs.{SystemOf.system_of, Run.IsInForm, TaskTiming.timing_at};
ghost use Rattle.cl_run_data.specs.Parts.{IsLawfulOn, HasNoOtherJobs, ShowsTask};
ghost use Rattle.cl_check.specs.{declared.job_ends.End.TheVariants.Finish, JobMoments.AreEndsOfJobs};
ghost use Rattle.cl_near.specs.{Plans.IsPlanOfTask, Seen.IsSeenOfTask, Inner.SeenJobs.{IsMissed, HasTaken, IsSeenOfJobs}, declared.task_seen.SeenOfTask.TheVariants.{Missed, Response}};

use crate::budget::Budget;
use crate::run_size::{RunSize, size_of_run};
use crate::task_plan::TaskPlan;
use crate::task_wishes::TaskWishes;
use cl_check::{End, ends_apart, tasks_apart};
use cl_gen::wished_table;
use cl_model::{List, ValidModel};
use cl_run_data::RunData;
use cl_runs::{Job, JobTable};
use cl_sched::simulate_cores;
use cl_time::NoMemory;
use std::alloc::Global;

/// What is seen of a task in a run.
#[derive(Clone, Copy, PartialEq, Eq)]
pub enum SeenOfTask {
    /// A job hasn't finished by its deadline, and the run lasts until then.
    Missed,
    /// No job misses its deadline, and this is the greatest response of one that has finished.
    Response(u64),
    /// No run is made, or no job finishes in it.
    Nothing,
}

/// Makes the job table of a planned run on some cores.
pub(crate) fn planned_table(
    alloc: Global,
    model: &ValidModel,
    plan: &TaskPlan,
    cores: &[bool],
) -> Result<JobTable, NoMemory>
    requires { plan.now.ticks ≤ MOST_RUN_TICKS }
    ensures ticks { IfOk result (λ table. table.ticks ≡ plan.now.ticks) }
    ensures lawful { IfOk result (IsLawfulOn (system_of model.now) cores.now) }
    ensures none { IfOk result (HasNoOtherJobs (system_of model.now) cores.now) }
{
    let mut wishes = TaskWishes { model, plan };
    wished_table(alloc, model, plan.ticks, cores, &mut wishes)
}

/// Finds when the jobs of a task finish in a run.
fn finishes(
    alloc: Global,
    model: &ValidModel,
    run: &RunData,
    task: u32,
) -> Result<List<Option<u64>>, NoMemory>
    requires task { task < length model.now.tasks }
    requires in_form { IsInForm (system_of model.now) run.now }
    requires shows { ShowsTask (system_of model.now) task run.now }
    ensures { IfOk result
        (AreEndsOfJobs Finish (system_of model.now) run.now task (length (timing_at (system_of model.now) task).ranges - 1)) }
{
    let apart = tasks_apart(alloc, model, run)?;
    let runnables = model.task(task).runnables.len();
    let last = runnables as u32 - 1;
    ends_apart(alloc, model, run, &apart, task, last, End::Finish)
}

/// Checks whether a job misses a deadline so many ticks after its arrival, in a run that lasts until
/// then.
fn misses(arrival: u64, finish: Option<u64>, deadline: u64, ticks: u64) -> bool
    requires { ticks ≤ MOST_RUN_TICKS }
    ensures { result ≡ true → IsMissed (arrival + deadline) ticks finish }
{
    let due = arrival.saturating_add(deadline);
    match finish {
        Some(finish) => finish > due,
        None => due <= ticks,
    }
}

impl SeenOfTask {
    /// Adds a job that takes so long to what is seen.
    fn or_response(self, response: u64) -> SeenOfTask
        ensures missed { result ≡ Missed → self ≡ Missed }
        ensures response { (ticks : ℕ) → result ≡ Response ticks → (self ≡ Response ticks) ⊎ (response ≡ ticks) }
    {
        match self {
            SeenOfTask::Missed => SeenOfTask::Missed,
            SeenOfTask::Response(greatest) => SeenOfTask::Response(greatest.max(response)),
            SeenOfTask::Nothing => SeenOfTask::Response(response),
        }
    }

    /// Adds a job that arrives at a moment to what is seen, if it has finished.
    fn or_job(self, arrival: u64, finish: Option<u64>) -> SeenOfTask
        ensures missed { result ≡ Missed → self ≡ Missed }
        ensures response { (ticks : ℕ) → result ≡ Response ticks → (self ≡ Response ticks) ⊎ (HasTaken arrival finish ticks) }
    {
        match finish {
            Some(finish) => self.or_response(finish.saturating_sub(arrival)),
            None => self,
        }
    }
}

/// Finds what is seen of jobs that finish at these moments.
fn seen_of_jobs(jobs: &[Job], finishes: &[Option<u64>], deadline: u64, ticks: u64) -> SeenOfTask
    requires as_many { length finishes.now ≡ length jobs.now }
    requires short { ticks ≤ MOST_RUN_TICKS }
    ensures { IsSeenOfJobs jobs.now finishes.now deadline ticks result }
{
    let mut seen = SeenOfTask::Nothing;
    for (place, finish) in finishes.iter().enumerate() {
        let arrival = jobs[place].arrival;
        if misses(arrival, *finish, deadline, ticks) {
            return SeenOfTask::Missed;
        }
        seen = seen.or_job(arrival, *finish);
    }
    seen
}

/// Finds what is seen of a task in a run.
fn seen_in_run(
    alloc: Global,
    model: &ValidModel,
    run: &RunData,
    task: u32,
) -> Result<SeenOfTask, NoMemory>
    requires task { task < length model.now.tasks }
    requires short { run.now.table.ticks ≤ MOST_RUN_TICKS }
    requires in_form { IsInForm (system_of model.now) run.now }
    requires shows { ShowsTask (system_of model.now) task run.now }
    ensures { IfOk result (IsSeenOfTask model.now task) }
{
    // So that it is known that the model is valid.
    let _valid = model.plain();
    let finishes = finishes(alloc, model, run, task)?;
    let table = run.table();
    let jobs = table.jobs_of(task);
    let deadline = model.deadline_of(task);
    Ok(seen_of_jobs(jobs, finishes.as_slice(), deadline, table.ticks))
}

/// Takes the run of a plan from the budget, if it is small enough and the budget holds it.
fn take_run(model: &ValidModel, plan: &TaskPlan, budget: &mut Budget) -> bool
    ensures { result ≡ true → plan.now.ticks ≤ MOST_RUN_TICKS }
{
    match size_of_run(model, plan.ticks, plan.cores()) {
        RunSize::Fits { count } => budget.take(count),
        RunSize::TooLong | RunSize::TooMany { .. } => false,
    }
}

/// Finds what is seen of a task in the run of its plan, which is made on its core alone.
///
/// `NoMemory` comes where there is no memory for the run; it leaves nothing.
pub fn seen_of_task(
    alloc: Global,
    model: &ValidModel,
    plan: &TaskPlan,
    budget: &mut Budget,
) -> Result<SeenOfTask, NoMemory>
    requires { IsPlanOfTask model.now plan.now.task plan.now }
    ensures { IfOk result (IsSeenOfTask model.now plan.now.task) }
{
    if !take_run(model, plan, budget) {
        return Ok(SeenOfTask::Nothing);
    }
    // So that it is known that the model is valid.
    let _valid = model.plain();
    let cores = plan.cores();
    let table = planned_table(alloc, model, plan, cores)?;
    let run = simulate_cores(alloc, model, table, cores)?;
    seen_in_run(alloc, model, &run, plan.task)
}

//! When the jobs of the groups of a chain read and write, by the access kind of their task. Times
//! are in ticks.
ghost use Rattle.std.specs.Prelude.{◌≡◌, ◌<◌, length, map, Some, IfOk};
ghost use Rattle.cl_model.specs.{ByNumber.task_at, Groups.groups_at, Validity.IsValid};
ghost use Rattle.cl_runs.specs.{SystemOf.system_of, Run.{IsInForm, jobs_of}, Moments.{Reads, Writes}};
ghost use Rattle.cl_check.specs.{Apart.StandApart, InOrder.{AreTimesPositive, AreGroupsInOrder}, JobMoments.{IsMomentOf, EndsAt}};
ghost use Rattle.cl_chain.specs.Inner.GroupTables.{AreMomentsAt, AreTables, IsTimedWrite, AreTimedWrites};

use crate::hops::moment_at;
use cl_check::{End, ends_apart, tasks_apart};
use cl_model::{AccessKind, List, ValidModel};
use cl_run_data::RunData;
use cl_runs::Job;
use cl_time::NoMemory;
use std::alloc::Global;

/// When the jobs of a group read and write: an entry for each job, `None` where it doesn't read or
/// write.
#[derive(Drop)]
pub(crate) struct GroupMoments {
    pub(crate) reads: List<Option<u64>>,
    pub(crate) writes: List<Option<u64>>,
}

/// Finds when a runnable starts, or finishes, in each job.
fn ends_of(
    alloc: Global,
    model: &ValidModel,
    run: &RunData,
    apart: &RunData,
    task: u32,
    place: u32,
    end: End,
) -> Result<List<Option<u64>>, NoMemory>
    requires is_task { task < length model.now.tasks }
    requires is_runnable { place < length (task_at model.now task).runnables }
    requires in_form { IsInForm (system_of model.now) run.now }
    requires times { AreTimesPositive (jobs_of run.now task) }
    requires apart { StandApart (system_of model.now) run.now apart.now }
    ensures { IfOk result (λ ends.
        AreMomentsAt (λ job t. EndsAt end (system_of model.now) run.now task job place t) ends) }
{
    ends_apart(alloc, model, run, apart, task, place, end)
}

/// Lists when each job arrives.
pub(crate) fn arrivals_of(alloc: Global, jobs: &[Job]) -> Result<List<Option<u64>>, NoMemory>
    ensures { IfOk result (λ arrivals. arrivals ≡ map (λ job. Some job.arrival) jobs.now) }
{
    let mut arrivals = List::with_room(alloc, jobs.len())?;
    for job in jobs {
        arrivals.push(Some(job.arrival))?;
    }
    Ok(arrivals)
}

/// Returns the deadline of a job if the job has finished by then and the run lasts until then.
fn timed_write(job: &Job, deadline: u64, ticks: u64, finish: Option<u64>) -> Option<u64>
    ensures { IsMomentOf (IsTimedWrite job.now deadline ticks finish) result }
{
    let write = job.arrival.checked_add(deadline)?;
    let finish = finish?;
    if finish <= write && write <= ticks {
        Some(write)
    } else {
        None
    }
}

/// Lists when each job writes at its deadline.
fn timed_writes(
    alloc: Global,
    jobs: &[Job],
    deadline: u64,
    ticks: u64,
    finishes: &[Option<u64>],
) -> Result<List<Option<u64>>, NoMemory>
    ensures { IfOk result (λ writes. AreTimedWrites jobs.now deadline ticks finishes.now writes) }
{
    let mut writes = List::with_room(alloc, jobs.len())?;
    for place in 0..jobs.len() {
        let finish = moment_at(finishes, place);
        writes.push(timed_write(&jobs[place], deadline, ticks, finish))?;
    }
    Ok(writes)
}

/// Returns the access kind and the number of runnables of a task.
fn access_of(model: &ValidModel, task: u32) -> (AccessKind, u32)
    requires { task < length model.now.tasks }
    ensures kind { result.0 ≡ (task_at model.now task).access }
    ensures runnables { result.1 ≡ length (task_at model.now task).runnables }
{
    let task = model.task(task);
    (task.access, task.runnables.len() as u32)
}

/// Finds when a runnable reads in each job.
fn reads_of(
    alloc: Global,
    model: &ValidModel,
    run: &RunData,
    apart: &RunData,
    task: u32,
    place: u32,
) -> Result<List<Option<u64>>, NoMemory>
    requires is_task { task < length model.now.tasks }
    requires is_runnable { place < length (task_at model.now task).runnables }
    requires in_form { IsInForm (system_of model.now) run.now }
    requires times { AreTimesPositive (jobs_of run.now task) }
    requires apart { StandApart (system_of model.now) run.now apart.now }
    ensures { IfOk result (λ reads.
        AreMomentsAt (λ job t. Reads (system_of model.now) run.now task job place t) reads) }
{
    match access_of(model, task).0 {
        AccessKind::Explicit => ends_of(alloc, model, run, apart, task, place, End::Start),
        AccessKind::Implicit => ends_of(alloc, model, run, apart, task, 0, End::Start),
        AccessKind::Timed => arrivals_of(alloc, run.table().jobs_of(task)),
    }
}

/// Finds when a runnable writes in each job.
fn writes_of(
    alloc: Global,
    model: &ValidModel,
    run: &RunData,
    apart: &RunData,
    task: u32,
    place: u32,
) -> Result<List<Option<u64>>, NoMemory>
    requires is_task { task < length model.now.tasks }
    requires is_runnable { place < length (task_at model.now task).runnables }
    requires in_form { IsInForm (system_of model.now) run.now }
    requires times { AreTimesPositive (jobs_of run.now task) }
    requires apart { StandApart (system_of model.now) run.now apart.now }
    ensures { IfOk result (λ writes.
        AreMomentsAt (λ job t. Writes (system_of model.now) run.now task job place t) writes) }
{
    let (access, runnables) = access_of(model, task);
    match access {
        AccessKind::Explicit => ends_of(alloc, model, run, apart, task, place, End::Finish),
        AccessKind::Implicit => ends_of(alloc, model, run, apart, task, runnables - 1, End::Finish),
        AccessKind::Timed => {
            let finishes = ends_of(alloc, model, run, apart, task, runnables - 1, End::Finish)?;
            let deadline = model.deadline_of(task);
            let table = run.table();
            timed_writes(
                alloc,
                table.jobs_of(task),
                deadline,
                table.ticks,
                finishes.as_slice(),
            )
        }
    }
}

/// Finds when the jobs of each group of a chain read and write, by the lists of the tasks that
/// `tasks_apart` returns.
pub(crate) fn moments_of_groups_apart(
    alloc: Global,
    model: &ValidModel,
    run: &RunData,
    apart: &RunData,
    chain: u32,
) -> Result<List<GroupMoments>, NoMemory>
    requires is_chain { chain < length model.now.chains }
    requires in_form { IsInForm (system_of model.now) run.now }
    requires ordered { AreGroupsInOrder (groups_at model.now chain) run.now }
    requires apart { StandApart (system_of model.now) run.now apart.now }
    ensures tables { IfOk result
        (AreTables (system_of model.now) run.now (groups_at model.now chain)) }
    ensures some { 0 < length (groups_at model.now chain) }
    ensures valid { IsValid model.now }
{
    let chains = model.chains();
    prove!(chain < chains);
    let mut tables = List::new(alloc);
    for place in 0..model.group_count(chain) {
        let group = model.group(chain, place);
        tables.push(GroupMoments {
            reads: reads_of(alloc, model, run, apart, group.task, group.first)?,
            writes: writes_of(alloc, model, run, apart, group.task, group.last)?,
        })?;
    }
    Ok(tables)
}

/// Finds when the jobs of each group of a chain read and write.
pub(crate) fn moments_of_groups(
    alloc: Global,
    model: &ValidModel,
    run: &RunData,
    chain: u32,
) -> Result<List<GroupMoments>, NoMemory>
    requires is_chain { chain < length model.now.chains }
    requires in_form { IsInForm (system_of model.now) run.now }
    requires ordered { AreGroupsInOrder (groups_at model.now chain) run.now }
    ensures tables { IfOk result
        (AreTables (system_of model.now) run.now (groups_at model.now chain)) }
    ensures some { IfOk result (λ _. 0 < length (groups_at model.now chain)) }
    ensures valid { IfOk result (λ _. IsValid model.now) }
{
    let apart = tasks_apart(alloc, model, run)?;
    moments_of_groups_apart(alloc, model, run, &apart, chain)
}

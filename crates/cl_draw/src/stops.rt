//! The jobs that carry a reaction, with the moments at which they read and write. Times are in
//! ticks.
ghost use Rattle.std.specs.Prelude.{◌≡◌, ℕ, ◌<◌, length, IfOk};
ghost use Rattle.cl_model.specs.{ByNumber.task_at, Groups.IsGroupOf};
ghost use Rattle.cl_runs.specs.{Legal.IsLegal, Moments.{Starts, Finishes, Reads, Writes}, RunChains.run_moments, SystemOf.system_of};
ghost use Rattle.cl_draw.specs.{ChainLines.{first_stop, last_stop}, Reactions.{stop_at_group, IsStop}, Inner.Looks.AreKnown};

use cl_check::moments;
use cl_model::{AccessKind, Group, List, ValidModel};
use cl_run_data::RunData;
use cl_time::NoMemory;
use std::alloc::Global;

/// A job of a group of a chain, with the moments at which it reads and writes.
#[derive(Clone, Copy, PartialEq, Eq)]
pub struct Stop {
    pub task: u32,
    /// The job, counted from 0.
    pub job: u64,
    pub read: u64,
    pub write: u64,
}

/// The longest reaction of a chain: from when to when it lasts, and its stops, one for each group
/// in order.
#[derive(Drop)]
pub struct Reaction {
    pub from: u64,
    pub to: u64,
    pub stops: List<Stop>,
}

/// Finds when a runnable of a job starts. It does start.
fn start_of(
    alloc: Global,
    model: &ValidModel,
    run: &RunData,
    task: u32,
    place: u32,
    job: u64,
) -> Result<u64, NoMemory>
    requires legal { IsLegal (system_of model.now) run.now }
    requires is_task { task < length model.now.tasks }
    requires is_runnable { place < length (task_at model.now task).runnables }
    requires starts { (t : ℕ) × Starts (system_of model.now) run.now task job place t }
    ensures { IfOk result (Starts (system_of model.now) run.now task job place) }
{
    // So that it is known that the model is valid.
    let _valid = model.plain();
    let found = moments(alloc, model, run, task, place)?;
    match found.as_slice()[job as usize].start {
        Some(start) => Ok(start),
        None => unreachable!(),
    }
}

/// Finds when a runnable of a job finishes. It does finish.
fn finish_of(
    alloc: Global,
    model: &ValidModel,
    run: &RunData,
    task: u32,
    place: u32,
    job: u64,
) -> Result<u64, NoMemory>
    requires legal { IsLegal (system_of model.now) run.now }
    requires is_task { task < length model.now.tasks }
    requires is_runnable { place < length (task_at model.now task).runnables }
    requires finishes { (t : ℕ) × Finishes (system_of model.now) run.now task job place t }
    ensures { IfOk result (Finishes (system_of model.now) run.now task job place) }
{
    // So that it is known that the model is valid.
    let _valid = model.plain();
    let found = moments(alloc, model, run, task, place)?;
    match found.as_slice()[job as usize].finish {
        Some(finish) => Ok(finish),
        None => unreachable!(),
    }
}

/// Finds when a job of a group reads. The job also writes.
fn read_of(
    alloc: Global,
    model: &ValidModel,
    run: &RunData,
    group: Group,
    job: u64,
) -> Result<u64, NoMemory>
    requires legal { IsLegal (system_of model.now) run.now }
    requires group { IsGroupOf model.now group }
    requires writes { (t : ℕ) × Writes (system_of model.now) run.now group.task job group.last t }
    ensures { IfOk result (Reads (system_of model.now) run.now group.task job group.first) }
{
    match model.task(group.task).access {
        AccessKind::Explicit => start_of(alloc, model, run, group.task, group.first, job),
        AccessKind::Implicit => start_of(alloc, model, run, group.task, 0, job),
        AccessKind::Timed => Ok(run.table().jobs_of(group.task)[job as usize].arrival),
    }
}

/// Finds when a job of a group writes. It does write.
fn write_of(
    alloc: Global,
    model: &ValidModel,
    run: &RunData,
    group: Group,
    job: u64,
) -> Result<u64, NoMemory>
    requires legal { IsLegal (system_of model.now) run.now }
    requires group { IsGroupOf model.now group }
    requires writes { (t : ℕ) × Writes (system_of model.now) run.now group.task job group.last t }
    ensures { IfOk result (Writes (system_of model.now) run.now group.task job group.last) }
{
    let task = model.task(group.task);
    match task.access {
        AccessKind::Explicit => finish_of(alloc, model, run, group.task, group.last, job),
        AccessKind::Implicit => {
            let last = (task.runnables.len() - 1) as u32;
            finish_of(alloc, model, run, group.task, last, job)
        }
        AccessKind::Timed => {
            let table = run.table();
            // read for its range: a write is within the run
            let _end = table.ticks;
            let arrival = table.jobs_of(group.task)[job as usize].arrival;
            Ok(arrival + model.deadline_of(group.task))
        }
    }
}

/// Builds the stop of a job of a group. The job writes.
pub(crate) fn stop_of(
    alloc: Global,
    model: &ValidModel,
    run: &RunData,
    group: Group,
    job: u64,
) -> Result<Stop, NoMemory>
    requires legal { IsLegal (system_of model.now) run.now }
    requires group { IsGroupOf model.now group }
    requires writes { (t : ℕ) × Writes (system_of model.now) run.now group.task job group.last t }
    ensures { IfOk result (IsStop (run_moments (system_of model.now) run.now) group job) }
{
    Ok(Stop {
        task: group.task,
        job,
        read: read_of(alloc, model, run, group, job)?,
        write: write_of(alloc, model, run, group, job)?,
    })
}

/// Returns the stop of a group.
pub(crate) fn stop_at(stops: &[Stop], group: usize) -> Stop
    requires { group < length stops.now }
    ensures stop { result ≡ stop_at_group stops.now group }
    ensures known { (tasks : ℕ) → AreKnown tasks stops.now → result.task < tasks }
{
    stops[group]
}

/// Returns the first stop of a reaction.
pub(crate) fn first_stop(reaction: &Reaction) -> Stop
    requires { 0 < length reaction.now.stops }
    ensures stop { result ≡ first_stop reaction.now }
    ensures known { (tasks : ℕ) → AreKnown tasks reaction.now.stops → result.task < tasks }
{
    stop_at(reaction.stops.as_slice(), 0)
}

/// Returns the last stop of a reaction.
pub(crate) fn last_stop(reaction: &Reaction) -> Stop
    requires { 0 < length reaction.now.stops }
    ensures stop { result ≡ last_stop reaction.now }
    ensures known { (tasks : ℕ) → AreKnown tasks reaction.now.stops → result.task < tasks }
{
    let stops = reaction.stops.as_slice();
    stop_at(stops, stops.len() - 1)
}
